// What `verify` says of `unpack`.
ghost use Rattle.unpack_laws.specs.Verified.{UnpacksVerified};

/// Where `verify` says yes of an image, `unpack` of it is refused for no tree that is missing or damaged, as long as the
/// root lies apart from the folder of the trees.
pub fn verified_images_unpack()
    ensures unpacks { UnpacksVerified }
{}

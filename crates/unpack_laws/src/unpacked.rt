// What `unpack` leaves.
ghost use Rattle.unpack_laws.specs.Unpacked.{UnpacksRows};

/// `unpack` that is done leaves the trees of the image's rows, laid one over another in their order, and over them the
/// document of the launch, as long as the root lies apart from the folder of the trees.
pub fn unpacked_images_have_their_rows()
    ensures unpacks { UnpacksRows }
{}

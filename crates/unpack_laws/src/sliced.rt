// What is known of images whose application is cut into slices.
ghost use Rattle.unpack_laws.specs.Sliced.{UnpacksSliced};

/// An image that has the trees of the slices of an application, in order, and one that has the whole application in their
/// place unpack to the same files.
pub fn sliced_images_unpack()
    ensures unpacks { UnpacksSliced }
{}

// What is known of the image that `create` makes by what it comes to alone.
ghost use Rattle.cnb_create.specs.Defined.{CreatesDefinedImage};

/// What `create` comes to says of itself that the image in the store is the one that is defined for the first trial that
/// passes, whatever its children answered and in whatever order, for what the builds left, and for the image of before;
/// or that no trial passes.
pub fn created_image_is_defined()
    ensures defined { CreatesDefinedImage }
{}

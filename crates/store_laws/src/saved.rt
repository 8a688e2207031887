// What `export` and `create` leave in the store.
ghost use Rattle.store_laws.specs.Saved.{CreatesSaved, ExportsSaved};

/// The command `export` that is done leaves an image whose document reads as it, and the trees of its rows above the run
/// image. Where the store was sound and had the trees of the run image, and the document isn't too long to be read, the
/// image is whole: so `verify` says yes, and `unpack` finds its trees.
pub fn exported_images_verify()
    ensures saves { ExportsSaved }
{}

/// So does `create`, of the files that its builds left.
pub fn created_images_verify()
    ensures saves { CreatesSaved }
{}

// Where layers are restored from.
ghost use Rattle.std.specs.Prelude.{◌≡◌};
ghost use Rattle.cnb_restore.specs.Images.{layers_of, store_of};

use image_docs::{CacheDoc, ImageDoc, LayerRow, StoreRow};

/// The previous image, where there is one, and the rows gathered from caches.
#[derive(Drop)]
pub struct Sources {
    pub previous: Option<ImageDoc>,
    pub rows: CacheDoc,
}

pub(crate) fn layers_of(previous: &Option<ImageDoc>) -> &[LayerRow]
    ensures { result.now ≡ layers_of previous.now }
{
    match previous {
        Some(image) => image.layers.as_slice(),
        None => &[],
    }
}

pub(crate) fn store_of(previous: &Option<ImageDoc>) -> &[StoreRow]
    ensures { result.now ≡ store_of previous.now }
{
    match previous {
        Some(image) => image.store.as_slice(),
        None => &[],
    }
}

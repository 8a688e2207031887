// What buildpacks left.
use app_slices::Pattern;
use cnb_toml::{Label, Process};
use cnb_world::List;
use image_docs::{LayerRow, StoreRow};

/// A layer of an image, and whether the previous image has the same.
#[derive(Drop)]
pub struct ImageLayer {
    pub row: LayerRow,
    pub reused: bool,
}

/// What buildpacks left, each list in the order of the group: labels, processes and slices of their `launch.toml`, what
/// their `store.toml` keeps, the layers that go into the image, and those that go into caches.
#[derive(Drop)]
pub struct Gathered {
    pub labels: List<Label>,
    pub processes: List<Process>,
    pub slices: List<List<Pattern>>,
    pub store_rows: List<StoreRow>,
    pub layers: List<ImageLayer>,
    pub cached: List<LayerRow>,
}

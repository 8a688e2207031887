// What an image is made of, and what an export comes to.
use cnb_toml::{BpId, ImageName, LayerName};
use cnb_world::List;
use image_docs::{ImageDoc, RunDoc};
use run_docs::GroupDoc;
use tree_canon::Digest;

/// What an image is made over: its run image, with the name of that, and the group.
#[derive(Drop)]
pub(crate) struct ImageFrame<'a> {
    pub(crate) name: &'a ImageName,
    pub(crate) run: &'a RunDoc,
    pub(crate) group: &'a GroupDoc,
}

/// The digests of the trees above the layers: those of the application, the launcher's, and that of the links of the
/// process types, where there is one.
#[derive(Drop)]
pub(crate) struct Digests {
    pub app: List<Digest>,
    pub launcher: Digest,
    pub process: Option<Digest>,
}

/// A layer of the image: whose it is, and whether it was reused from the previous image.
#[derive(Drop)]
pub struct ExportedRow {
    pub id: BpId,
    pub layer: LayerName,
    pub reused: bool,
}

/// The image, its layers in order, and the numbers of the caches that were dropped.
#[derive(Drop)]
pub struct Exported {
    pub image: ImageDoc,
    pub rows: List<ExportedRow>,
    pub gone: List<u32>,
}

// Why `rebase` and `base` are refused.
use cnb_toml::{DocFault, ImageName};
use cnb_world::{LimitKind, Path, Text};
use image_files::ImageFault;
use tree_canon::Digest;
use tree_store::StoreFault;

/// Why `rebase` ends before its work is done.
#[derive(Drop)]
pub enum RebaseFault {
    NoImage(ImageName),
    /// The image's note of its topmost run row isn't the one that it has.
    TopDiffers { recorded: Digest, found: Digest },
    /// The run image is for another target, as `linux/arm64`.
    TargetDiffers { old: Text, new: Text },
    Document(Path, DocFault),
    Limit(LimitKind),
    File(Path),
    Memory,
}

/// Why `base` ends before its work is done: a tree was not put, or the run image's document was not written.
#[derive(Drop)]
pub enum BaseFault {
    Store(StoreFault),
    Image(ImageFault),
}

// Why `prune` and `verify` are refused.
use cnb_toml::{DocFault, ImageName};
use cnb_world::{LimitKind, Path};
use tree_store::StoreFault;

/// Why `prune` ends before its work is done: a document of the store is refused or too long, or the outside gave no
/// answer. `File` has the path whose call failed.
#[derive(Drop)]
pub enum PruneFault {
    Document(Path, DocFault),
    Limit(LimitKind),
    File(Path),
    Memory,
}

/// Why `verify` ends before its work is done: there is no such image, its document is refused or too long, or a tree
/// isn't there or is damaged.
#[derive(Drop)]
pub enum VerifyFault {
    NoImage(ImageName),
    Document(Path, DocFault),
    Limit(LimitKind),
    Store(StoreFault),
}

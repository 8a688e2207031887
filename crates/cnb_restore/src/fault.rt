// Why images were not analyzed, or layers not restored.
use cnb_toml::{DocFault, ImageName};
use cnb_world::{LimitKind, Path};
use tree_canon::{Digest, Reason};

/// An image isn't there, a document is refused or too long, the bytes that a cache holds under a digest are damaged, or
/// the outside gave no answer. `File` has the path whose call failed; of damaged bytes `found` is the digest, and where
/// it is the one that was asked for, `bad` says why they spell no tree.
#[derive(Drop)]
pub enum RestoreFault {
    NoImage(ImageName),
    Document(Path, DocFault),
    Damaged {
        asked: Digest,
        found: Digest,
        bad: Option<Reason>,
    },
    Limit(LimitKind),
    File(Path),
    Memory,
}

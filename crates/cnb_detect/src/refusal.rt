// Why `detect` is refused.
use cnb_toml::{BpId, DocFault};
use cnb_world::{LimitKind, Path, Text};

/// Why `detect` ends before its work is done (platform.md, "detector", and this implementation's own).
#[derive(Drop)]
pub enum DetectRefusal {
    /// A call on this path failed.
    File(Path),
    /// Memory ran out.
    Memory,
    /// The document at this path is refused.
    Document(Path, DocFault),
    /// A child could not be run.
    Child,
    /// Something is more than its limit.
    Limit(LimitKind),
    /// A buildpack of another Buildpack API is asked for.
    BuildpackApi(Text),
    /// An entry of the order means no buildpack, or several.
    Order { id: BpId, ambiguous: bool },
    /// No group passes; a child that was asked erred, or none did.
    NoGroup { erred: bool },
}

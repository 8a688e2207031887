// Why `check` is refused.
use cnb_toml::{BpId, DocFault};
use cnb_world::{LimitKind, Path, Text};

/// Why `check` ends before its work is done.
#[derive(Drop)]
pub enum CheckRefusal {
    /// A call on this path failed.
    File(Path),
    /// Memory ran out.
    Memory,
    /// The document at this path is refused.
    Document(Path, DocFault),
    /// Something is more than its limit.
    Limit(LimitKind),
    /// A buildpack of another Buildpack API is asked for, or is in the group.
    BuildpackApi(Text),
    /// An entry of the order means no buildpack, or several.
    Order { id: BpId, ambiguous: bool },
    /// The record proves nothing: the number, from 1, of its first line that doesn't meet its rule, or of the one that
    /// is missing.
    BadRecord(u32),
    /// The document at this path has another value than the one that the record proves.
    RecordDiffers(Path),
}

// Why a command is refused.
ghost use Rattle.std.specs.Prelude.{◌≡◌};
ghost use Rattle.cnb_lifecycle.specs.Refusal.{code_of, name_of};

use cnb_toml::{BpId, DocFault, ImageName, LayerName};
use cnb_world::{LimitKind, Path, Text};
use tree_canon::{Digest, Reason};

/// Why a command ends before its work is done (platform.md, "detector" to "launcher", and this implementation's own).
#[derive(Drop)]
pub enum Refusal {
    /// The words are no command.
    Usage,
    /// A call on this path failed.
    File(Path),
    /// Memory ran out.
    Memory,
    /// The document at this path is refused.
    Document(Path, DocFault),
    /// A child could not be run.
    Child,
    /// Something is more than its limit.
    Limit(LimitKind),
    /// What stands at this path can't be kept in a tree, or a folder is wanted there.
    OddFile(Path),
    /// The platform asks for another Platform API.
    PlatformApi(Text),
    /// A buildpack of another Buildpack API is asked for.
    BuildpackApi(Text),
    /// An entry of the order means no buildpack, or several.
    Order {
        id: BpId,
        ambiguous: bool,
    },
    /// The store has no tree of this digest.
    NoTree(Digest),
    /// Something stands where an image is to be unpacked.
    Exists(Path),
    /// No group passes; a child that was asked erred, or none did.
    NoGroup {
        erred: bool,
    },
    /// The line of this number, from 1, of the record of a detection doesn't meet its rule.
    BadRecord(u32),
    /// The document at this path isn't the one that the record of a detection gives.
    RecordDiffers(Path),
    /// The bytes that are kept under a digest have another one, or spell no tree, for this reason.
    Damaged {
        asked: Digest,
        found: Digest,
        bad: Option<Reason>,
    },
    /// The store has no image, or run image, of this name.
    NoImage(ImageName),
    /// The build of a buildpack ended with this code, or by a signal.
    BuildFailed {
        id: BpId,
        code: Option<i32>,
    },
    /// A buildpack leaves a name unmet that it wasn't to meet.
    UnknownUnmet {
        id: BpId,
        name: Text,
    },
    /// A layer for caches has no contents.
    NoContents(BpId, LayerName),
    /// The store has other bytes under this digest.
    Clash {
        digest: Digest,
    },
    /// A layer for launch has no contents, and the previous image has none of it.
    NoPrevious(BpId, LayerName),
    /// A buildpack marks two processes as the default.
    TwoDefaults(BpId),
    /// A buildpack has a slice with a text that is no pattern.
    BadPattern(BpId, Text),
    /// The run image below an image isn't the one that it was made on.
    TopDiffers {
        recorded: Digest,
        found: Digest,
    },
    /// A run image is for another system or processor.
    TargetDiffers {
        old: Text,
        new: Text,
    },
    /// Words that begin with no process type would need a shell.
    ShellProcess(Text),
    /// The image has no such process, or no default.
    NoProcess(Text),
    /// A program that runs before the process ended with this code, or by a signal.
    ExecFailed {
        path: Path,
        code: Option<i32>,
    },
    /// What such a program wrote is no table of variables.
    BadExecOutput(Path),
}

impl Refusal {
    /// The exit status.
    pub fn code(&self) -> u8
        ensures { result ≡ code_of self.now }
    {
        match self {
            Refusal::Usage => 1,
            Refusal::File(_) => 2,
            Refusal::Memory => 3,
            Refusal::Document(_, _) => 4,
            Refusal::Child => 5,
            Refusal::Limit(_) => 6,
            Refusal::OddFile(_) => 8,
            Refusal::PlatformApi(_) => 11,
            Refusal::BuildpackApi(_) => 12,
            Refusal::Order { .. } => 13,
            Refusal::NoTree(_) => 14,
            Refusal::Exists(_) => 15,
            Refusal::NoGroup { erred: false } => 20,
            Refusal::NoGroup { erred: true } => 21,
            Refusal::BadRecord(_) => 22,
            Refusal::RecordDiffers(_) => 23,
            Refusal::Damaged { .. } => 30,
            Refusal::NoImage(_) => 31,
            Refusal::BuildFailed { .. } => 51,
            Refusal::UnknownUnmet { .. } => 52,
            Refusal::NoContents(_, _) => 60,
            Refusal::Clash { .. } => 61,
            Refusal::NoPrevious(_, _) => 62,
            Refusal::TwoDefaults(_) => 63,
            Refusal::BadPattern(_, _) => 64,
            Refusal::TopDiffers { .. } => 70,
            Refusal::TargetDiffers { .. } => 71,
            Refusal::ShellProcess(_) => 80,
            Refusal::NoProcess(_) => 81,
            Refusal::ExecFailed { .. } => 82,
            Refusal::BadExecOutput(_) => 83,
        }
    }

    /// The name that stands in the error line.
    pub(crate) fn name(&self) -> &'static str
        ensures { result.now ≡ name_of self.now }
    {
        match self {
            Refusal::Usage => "Usage",
            Refusal::File(_) => "File",
            Refusal::Memory => "Memory",
            Refusal::Document(_, _) => "Document",
            Refusal::Child => "Child",
            Refusal::Limit(_) => "Limit",
            Refusal::OddFile(_) => "OddFile",
            Refusal::PlatformApi(_) => "PlatformApi",
            Refusal::BuildpackApi(_) => "BuildpackApi",
            Refusal::Order { .. } => "Order",
            Refusal::NoTree(_) => "NoTree",
            Refusal::Exists(_) => "Exists",
            Refusal::NoGroup { .. } => "NoGroup",
            Refusal::BadRecord(_) => "BadRecord",
            Refusal::RecordDiffers(_) => "RecordDiffers",
            Refusal::Damaged { .. } => "Damaged",
            Refusal::NoImage(_) => "NoImage",
            Refusal::BuildFailed { .. } => "BuildFailed",
            Refusal::UnknownUnmet { .. } => "UnknownUnmet",
            Refusal::NoContents(_, _) => "NoContents",
            Refusal::Clash { .. } => "Clash",
            Refusal::NoPrevious(_, _) => "NoPrevious",
            Refusal::TwoDefaults(_) => "TwoDefaults",
            Refusal::BadPattern(_, _) => "BadPattern",
            Refusal::TopDiffers { .. } => "TopDiffers",
            Refusal::TargetDiffers { .. } => "TargetDiffers",
            Refusal::ShellProcess(_) => "ShellProcess",
            Refusal::NoProcess(_) => "NoProcess",
            Refusal::ExecFailed { .. } => "ExecFailed",
            Refusal::BadExecOutput(_) => "BadExecOutput",
        }
    }
}

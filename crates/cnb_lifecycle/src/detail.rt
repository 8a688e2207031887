// What stands behind a refusal's name in its line.
ghost use Rattle.std.specs.Prelude.{◌≡◌, IfOk};
ghost use Rattle.std.specs.Fmt.{decimal};
ghost use Rattle.std.specs.Option.{option_map};
ghost use Rattle.hex.specs.Hex.{encode_lower};
ghost use Rattle.cnb_lifecycle.specs.Refusal.{code_text, detail_of, fault_name, fault_path, layer_text, limit_name};
ghost use Rattle.cnb_lifecycle.specs.Refusal.{spaced, unless_empty};

use crate::refusal::Refusal;
use cnb_toml::{BpId, DocFault, LayerName};
use cnb_world::{LimitKind, Memory, Path, Text};
use std::alloc::Global;
use tree_canon::Digest;

// Two texts with a space between.
fn spaced(alloc: Global, first: &str, second: &str) -> Result<Text, Memory>
    ensures { IfOk result (λ text. text ≡ spaced first.now second.now) }
{
    let mut text = String::from_str(alloc, first)?;
    text.push_str(" ")?;
    text.push_str(second)?;
    Ok(Text::from_string(text))
}

fn limit_name(kind: LimitKind) -> &'static str
    ensures { result.now ≡ limit_name kind }
{
    match kind {
        LimitKind::Groups => "groups",
        LimitKind::Entries => "entries",
        LimitKind::Nesting => "nesting",
        LimitKind::Trials => "trials",
        LimitKind::Tree => "tree",
        LimitKind::Depth => "depth",
        LimitKind::Document => "document",
        LimitKind::Record => "record",
    }
}

fn order_detail(alloc: Global, id: &BpId, ambiguous: bool) -> Result<Text, Memory>
    ensures { IfOk result (λ text. detail_of (Refusal.Order id.now ambiguous) ≡ Some text) }
{
    let name = if ambiguous { "Ambiguous" } else { "Absent" };
    spaced(alloc, name, id.as_str())
}

fn fault_name(fault: &DocFault) -> &'static str
    ensures { result.now ≡ fault_name fault.now }
{
    match fault {
        DocFault::Absent => "Absent",
        DocFault::NotUtf8 => "NotUtf8",
        DocFault::NotToml => "NotToml",
        DocFault::MetaKind(_) => "MetaKind",
        DocFault::Missing(_) => "Missing",
        DocFault::Wrong(_) => "Wrong",
        DocFault::Name(_) => "Name",
        DocFault::Memory => "Memory",
    }
}

fn fault_path(fault: &DocFault) -> Option<&Text>
    ensures { option_map (λ path. path.now) result ≡ fault_path fault.now }
{
    match fault {
        DocFault::MetaKind(path) => Some(path),
        DocFault::Missing(path) => Some(path),
        DocFault::Wrong(path) => Some(path),
        DocFault::Name(path) => Some(path),
        DocFault::Absent => None,
        DocFault::NotUtf8 => None,
        DocFault::NotToml => None,
        DocFault::Memory => None,
    }
}

fn document_detail(alloc: Global, path: &Path, fault: &DocFault) -> Result<Text, Memory>
    ensures { IfOk result (λ text. detail_of (Refusal.Document path.now fault.now) ≡ Some text) }
{
    let text = spaced(alloc, path.as_str(), fault_name(fault))?;
    match fault_path(fault) {
        Some(key) => spaced(alloc, text.as_str(), key.as_str()),
        None => Ok(text),
    }
}

fn code_text(alloc: Global, code: Option<i32>) -> Result<Text, Memory>
    ensures { IfOk result (λ text. text ≡ code_text code) }
{
    match code {
        Some(code) => Ok(Text::from_string(format!(in alloc; "{code}")?)),
        None => Text::of(alloc, "none"),
    }
}

// Two digests.
fn digests(alloc: Global, first: &Digest, second: &Digest) -> Result<Text, Memory>
    ensures { IfOk result (λ text. text ≡ spaced (encode_lower first.now) (encode_lower second.now)) }
{
    let first = first.text(alloc)?;
    let second = second.text(alloc)?;
    spaced(alloc, first.as_str(), second.as_str())
}

// A layer of a buildpack.
fn layer_text(alloc: Global, id: &BpId, layer: &LayerName) -> Result<Text, Memory>
    ensures { IfOk result (λ text. text ≡ layer_text id.now layer.now) }
{
    let id = id.as_str();
    let layer = layer.as_str();
    Ok(Text::from_string(format!(in alloc; "{id}:{layer}")?))
}

fn number_text(alloc: Global, number: u32) -> Result<Text, Memory>
    ensures { IfOk result (λ text. text ≡ decimal number) }
{
    Ok(Text::from_string(format!(in alloc; "{number}")?))
}

fn ended_text(alloc: Global, what: &str, code: Option<i32>) -> Result<Text, Memory>
    ensures { IfOk result (λ text. text ≡ spaced what.now (code_text code)) }
{
    let code = code_text(alloc, code)?;
    spaced(alloc, what, code.as_str())
}

// A text, unless it is empty.
fn some_text(alloc: Global, text: &Text) -> Result<Option<Text>, Memory>
    ensures { IfOk result (λ detail. detail ≡ unless_empty text.now) }
{
    if text.as_str().is_empty() {
        return Ok(None);
    }
    Ok(Some(text.copy(alloc)?))
}

impl Refusal {
    /// What stands behind the name in the error line.
    pub(crate) fn detail(&self, alloc: Global) -> Result<Option<Text>, Memory>
        ensures { IfOk result (λ detail. detail ≡ detail_of self.now) }
    {
        match self {
            Refusal::Usage => Ok(None),
            Refusal::Memory => Ok(None),
            Refusal::Child => Ok(None),
            Refusal::NoGroup { .. } => Ok(None),
            Refusal::File(path) => Text::of(alloc, path.as_str()).map(Some),
            Refusal::OddFile(path) => Text::of(alloc, path.as_str()).map(Some),
            Refusal::Exists(path) => Text::of(alloc, path.as_str()).map(Some),
            Refusal::RecordDiffers(path) => Text::of(alloc, path.as_str()).map(Some),
            Refusal::BadRecord(line) => number_text(alloc, *line).map(Some),
            Refusal::BadExecOutput(path) => Text::of(alloc, path.as_str()).map(Some),
            Refusal::Document(path, fault) => document_detail(alloc, path, fault).map(Some),
            Refusal::Limit(kind) => Text::of(alloc, limit_name(*kind)).map(Some),
            Refusal::PlatformApi(text) => text.copy(alloc).map(Some),
            Refusal::BuildpackApi(text) => text.copy(alloc).map(Some),
            Refusal::Order { id, ambiguous } => order_detail(alloc, id, *ambiguous).map(Some),
            Refusal::NoTree(digest) => digest.text(alloc).map(Some),
            Refusal::Clash { digest } => digest.text(alloc).map(Some),
            Refusal::Damaged { asked, found, .. } => digests(alloc, asked, found).map(Some),
            Refusal::TopDiffers { recorded, found } => digests(alloc, recorded, found).map(Some),
            Refusal::NoImage(name) => Text::of(alloc, name.as_str()).map(Some),
            Refusal::BuildFailed { id, code } => ended_text(alloc, id.as_str(), *code).map(Some),
            Refusal::ExecFailed { path, code } => ended_text(alloc, path.as_str(), *code).map(Some),
            Refusal::UnknownUnmet { id, name } => spaced(alloc, id.as_str(), name.as_str()).map(
                Some,
            ),
            Refusal::NoContents(id, layer) => layer_text(alloc, id, layer).map(Some),
            Refusal::NoPrevious(id, layer) => layer_text(alloc, id, layer).map(Some),
            Refusal::TwoDefaults(id) => Text::of(alloc, id.as_str()).map(Some),
            Refusal::BadPattern(id, text) => spaced(alloc, id.as_str(), text.as_str()).map(Some),
            Refusal::TargetDiffers { old, new } => spaced(alloc, old.as_str(), new.as_str()).map(
                Some,
            ),
            Refusal::ShellProcess(word) => some_text(alloc, word),
            Refusal::NoProcess(kind) => some_text(alloc, kind),
        }
    }
}

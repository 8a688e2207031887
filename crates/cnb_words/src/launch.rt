// The words of `launch`.
ghost use Rattle.std.specs.Prelude.{◌≡◌, IfOk, IsTrue, map, string_bytes};
ghost use Rattle.cnb_toml.specs.Names.{is_process_type};
ghost use Rattle.cnb_words.specs.Faults.{AreReadAs};
ghost use Rattle.cnb_words.specs.Launch.{call_in, direct_call, launch_at, launch_in, launch_in_root, process_at};
ghost use Rattle.cnb_words.specs.Launch.{IsCall, KeepsLimits};

use crate::fault::WordsFault;
use crate::values::path_in;
use cnb_world::{List, Memory, Path, Text};
use std::alloc::Global;

/// What is to be launched: a process by its type, with arguments (platform.md, "launcher"); words, the first of which may
/// be a type; or a command as it is.
#[derive(Drop)]
pub enum Call {
    Entry { kind: Text, args: List<Text> },
    Words(List<Text>),
    Direct(List<Text>),
}

/// What the words of `launch` ask for.
#[derive(Drop)]
pub struct LaunchWords {
    pub root: Path,
    pub call: Call,
}

fn texts(alloc: Global, words: &[String]) -> Result<List<Text>, Memory>
    ensures { IfOk result (λ texts. texts ≡ map string_bytes words.now) }
{
    let mut texts = List::new(alloc);
    for word in words {
        let text = Text::of(alloc, word.as_str())?;
        texts.push(text)?;
    }
    Ok(texts)
}

fn direct_call(alloc: Global, words: &[String]) -> Result<Call, WordsFault>
    ensures reads { AreReadAs result (direct_call (map string_bytes words.now)) }
    ensures is_call { IfOk result IsCall }
{
    if words.is_empty() {
        return Err(WordsFault::Usage);
    }
    let words = texts(alloc, words)?;
    Ok(Call::Direct(words))
}

fn call_in(alloc: Global, words: &[String]) -> Result<Call, WordsFault>
    ensures reads { AreReadAs result (call_in (map string_bytes words.now)) }
    ensures is_call { IfOk result IsCall }
{
    match words {
        [first, command @ ..] if first.as_str() == "--" => direct_call(alloc, command),
        _ => {
            let words = texts(alloc, words)?;
            Ok(Call::Words(words))
        }
    }
}

/// What is to be launched in a root by words.
pub(crate) fn launch_at(
    alloc: Global,
    root: &str,
    words: &[String],
) -> Result<LaunchWords, WordsFault>
    ensures reads { AreReadAs result (launch_at root.now (map string_bytes words.now)) }
    ensures limits { IfOk result KeepsLimits }
{
    let root = path_in(alloc, root)?;
    let call = call_in(alloc, words)?;
    Ok(LaunchWords { root, call })
}

fn launch_in_root(alloc: Global, words: &[String]) -> Result<LaunchWords, WordsFault>
    ensures reads { AreReadAs result (launch_in_root (map string_bytes words.now)) }
    ensures limits { IfOk result KeepsLimits }
{
    match words {
        [root, words @ ..] => launch_at(alloc, root.as_str(), words),
        [] => Err(WordsFault::Usage),
    }
}

/// What the words behind `launch` ask for.
pub(crate) fn launch_in(alloc: Global, words: &[String]) -> Result<LaunchWords, WordsFault>
    ensures reads { AreReadAs result (launch_in (map string_bytes words.now)) }
    ensures limits { IfOk result KeepsLimits }
{
    match words {
        [first, rest @ ..] if first.as_str() == "--root" => launch_in_root(alloc, rest),
        _ => launch_at(alloc, "/", words),
    }
}

/// The process of a type, in a root.
pub(crate) fn process_at(
    alloc: Global,
    root: &str,
    kind: &str,
    words: &[String],
) -> Result<LaunchWords, WordsFault>
    requires { IsTrue (is_process_type kind.now) }
    ensures reads { AreReadAs result (process_at root.now kind.now (map string_bytes words.now)) }
    ensures limits { IfOk result KeepsLimits }
{
    let root = path_in(alloc, root)?;
    let kind = Text::of(alloc, kind)?;
    let args = texts(alloc, words)?;
    Ok(LaunchWords {
        root,
        call: Call::Entry { kind, args },
    })
}

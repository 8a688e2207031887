// The process that a call asks for.
ghost use Rattle.std.specs.Prelude.{◌≡◌, ◌++◌, IfErr, IfOk, IfSome, IsTrue, Ok, OnOk};
ghost use Rattle.std.specs.List.{list_all};
ghost use Rattle.std.specs.Option.{option_copied};
ghost use Rattle.cnb_toml.specs.Process.{is_process};
ghost use Rattle.steps.specs.Causes.{IsAnswer, IsGivenCause};
ghost use Rattle.cnb_launch.specs.Choosing.{args_or, by_default, by_words, chosen_by, chosen_in, line_of, of_process};
ghost use Rattle.cnb_launch.specs.Choosing.{process_of};
ghost use Rattle.cnb_launch.specs.Faults.{cause_of};
ghost use Rattle.cnb_launch.specs.Places.{IsShortDir};

use crate::fault::LaunchFault;
use cnb_toml::{ProcType, Process};
use cnb_words::Call;
use cnb_world::{List, Memory, Path, Text};
use image_docs::LaunchDoc;
use std::alloc::Global;

/// What was chosen: the type, where it is a process of the image, the command line, and the working folder as a place
/// of the image, where one is said.
#[derive(Drop)]
pub(crate) struct ChosenProcess {
    pub kind: Option<ProcType>,
    pub command: List<Text>,
    pub dir: Option<Path>,
}

#[tactic(auto, using(crate::proofs::PlaceLemmas::one_of))]
fn process_of<'a>(processes: &'a [Process], kind: &str) -> Option<&'a Process>
    requires { IsTrue (list_all is_process processes.now) }
    ensures process { option_copied result ≡ process_of kind.now processes.now }
    ensures sound { IfSome (option_copied result) (λ process. IsTrue (is_process process)) }
{
    for process in processes {
        if process.kind.as_str() == kind {
            return Some(process);
        }
    }
    None
}

fn push_copies(alloc: Global, line: &mut List<Text>, words: &[Text]) -> Result<(), Memory>
    ensures { OnOk result (line.new ≡ line.old ++ words.now) }
{
    for word in words {
        line.push(word.copy(alloc)?)?;
    }
    Ok(())
}

fn args_or<'a>(args: &'a [Text], words: &'a [Text]) -> &'a [Text]
    ensures { result.now ≡ args_or args.now words.now }
{
    if words.is_empty() { args } else { words }
}

// The command line of a process with the words of a user.
fn line_of(alloc: Global, process: &Process, words: &[Text]) -> Result<List<Text>, Memory>
    ensures { IfOk result (λ line. line ≡ line_of process.now words.now) }
{
    let mut line = List::new(alloc);
    push_copies(alloc, &mut line, process.command.as_slice())?;
    push_copies(alloc, &mut line, args_or(process.args.as_slice(), words))?;
    Ok(line)
}

fn copy_dir(alloc: Global, dir: &Option<Path>) -> Result<Option<Path>, Memory>
    ensures { IfOk result (λ copy. copy ≡ dir.now) }
{
    match dir {
        Some(path) => Ok(Some(path.copy(alloc)?)),
        None => Ok(None),
    }
}

#[tactic(auto, using(crate::proofs::PlaceLemmas::process_dir))]
fn of_process(
    alloc: Global,
    process: &Process,
    words: &[Text],
) -> Result<ChosenProcess, LaunchFault>
    requires { IsTrue (is_process process.now) }
    ensures answer { IsAnswer cause_of result (Ok (of_process process.now words.now)) }
    ensures given { IfErr result (λ fault. IsGivenCause (cause_of fault)) }
    ensures dir { IfOk result (λ chosen. IsShortDir chosen.dir) }
{
    let kind = process.kind.copy(alloc)?;
    let command = line_of(alloc, process, words)?;
    let dir = copy_dir(alloc, &process.dir)?;
    Ok(ChosenProcess {
        kind: Some(kind),
        command,
        dir,
    })
}

// The process of a type, which must be there.
fn of_type(
    alloc: Global,
    processes: &[Process],
    kind: &str,
    words: &[Text],
) -> Result<ChosenProcess, LaunchFault>
    requires { IsTrue (list_all is_process processes.now) }
    ensures answer { IsAnswer cause_of result (chosen_by (LaunchFault.NoProcess kind.now)
        (process_of kind.now processes.now) words.now) }
    ensures given { IfErr result (λ fault. IsGivenCause (cause_of fault)) }
    ensures dir { IfOk result (λ chosen. IsShortDir chosen.dir) }
{
    match process_of(processes, kind) {
        Some(process) => of_process(alloc, process, words),
        None => Err(LaunchFault::NoProcess(Text::of(alloc, kind)?)),
    }
}

fn by_default(alloc: Global, doc: &LaunchDoc) -> Result<ChosenProcess, LaunchFault>
    requires { IsTrue (list_all is_process doc.now.processes) }
    ensures answer { IsAnswer cause_of result (by_default doc.now.processes doc.now.default) }
    ensures given { IfErr result (λ fault. IsGivenCause (cause_of fault)) }
    ensures dir { IfOk result (λ chosen. IsShortDir chosen.dir) }
{
    match &doc.default {
        Some(kind) => of_type(alloc, doc.processes.as_slice(), kind.as_str(), &[]),
        None => Err(LaunchFault::NoProcess(Text::of(alloc, "")?)),
    }
}

fn by_words(alloc: Global, doc: &LaunchDoc, words: &[Text]) -> Result<ChosenProcess, LaunchFault>
    requires { IsTrue (list_all is_process doc.now.processes) }
    ensures answer { IsAnswer cause_of result (by_words doc.now words.now) }
    ensures given { IfErr result (λ fault. IsGivenCause (cause_of fault)) }
    ensures dir { IfOk result (λ chosen. IsShortDir chosen.dir) }
{
    let [word, args @ ..] = words else {
        return by_default(alloc, doc);
    };
    match process_of(doc.processes.as_slice(), word.as_str()) {
        Some(process) => of_process(alloc, process, args),
        None => Err(LaunchFault::ShellProcess(word.copy(alloc)?)),
    }
}

pub(crate) fn copy_words(alloc: Global, words: &[Text]) -> Result<List<Text>, Memory>
    ensures { IfOk result (λ copy. copy ≡ words.now) }
{
    let mut copy = List::new(alloc);
    push_copies(alloc, &mut copy, words)?;
    Ok(copy)
}

/// What a call asks for of an image's processes.
pub(crate) fn choose(
    alloc: Global,
    doc: &LaunchDoc,
    call: &Call,
) -> Result<ChosenProcess, LaunchFault>
    requires { IsTrue (list_all is_process doc.now.processes) }
    ensures answer { IsAnswer cause_of result (chosen_in doc.now call.now) }
    ensures given { IfErr result (λ fault. IsGivenCause (cause_of fault)) }
    ensures dir { IfOk result (λ chosen. IsShortDir chosen.dir) }
{
    match call {
        Call::Entry { kind, args } => of_type(
            alloc,
            doc.processes.as_slice(),
            kind.as_str(),
            args.as_slice(),
        ),
        Call::Words(words) => by_words(alloc, doc, words.as_slice()),
        Call::Direct(words) => Ok(ChosenProcess {
            kind: None,
            command: copy_words(alloc, words.as_slice())?,
            dir: None,
        }),
    }
}

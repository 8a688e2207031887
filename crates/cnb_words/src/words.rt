// The words of a command line.
ghost use Rattle.std.specs.Prelude.{◌≡◌, ◌∷◌, IfOk, IsTrue, map, string_bytes};
ghost use Rattle.cnb_toml.specs.Names.{is_process_type};
ghost use Rattle.cnb_words.specs.Chosen.{image_chosen, phase_chosen, store_chosen};
ghost use Rattle.cnb_words.specs.Options.{options_in};
ghost use Rattle.steps.specs.Causes.{IsAnswer};
ghost use Rattle.cnb_words.specs.Faults.{cause_of};
ghost use Rattle.cnb_words.specs.Words.{AsksWithinLimits, asked_by, asked_of, caches_asked, command_asked};
ghost use Rattle.cnb_words.specs.Words.{launcher_asked, options_asked, process_asked};

use crate::analyze::{AnalyzeWords, analyze_in};
use crate::base::{BaseWords, base_in};
use crate::build::{BuildWords, build_in};
use crate::check::{CheckWords, check_in};
use crate::create::{CreateWords, create_in};
use crate::detect::{DetectWords, detect_in};
use crate::drill::{DrillWords, drill_in};
use crate::export::{ExportWords, export_in};
use crate::fault::WordsFault;
use crate::launch::{LaunchWords, launch_at, launch_in, process_at};
use crate::program::{is_launcher, process_type, root_of};
use crate::prune::{PruneWords, prune_in};
use crate::rebase::{RebaseWords, rebase_in};
use crate::restore::{RestoreWords, restore_in};
use crate::show::{ShowWords, show_in};
use crate::unpack::{UnpackWords, unpack_in};
use crate::verify::{VerifyWords, verify_in};
use cnb_world::Path;
use std::alloc::Global;

/// What the words ask for.
#[derive(Drop)]
pub enum Asked {
    Detect(DetectWords),
    Analyze(AnalyzeWords),
    Restore(RestoreWords),
    Build(BuildWords),
    Export(ExportWords),
    Create(CreateWords),
    Rebase(RebaseWords),
    Base(BaseWords),
    Unpack(UnpackWords),
    Show(ShowWords),
    Prune(PruneWords),
    Verify(VerifyWords),
    Check(CheckWords),
    Drill(DrillWords),
    Launch(LaunchWords),
}

impl Asked {
    /// The folders of the caches that the command uses, in the order of the words.
    pub fn caches(&self) -> &[Path]
        ensures { result.now ≡ caches_asked self.now }
    {
        match self {
            Asked::Restore(options) => options.caches.as_slice(),
            Asked::Export(options) => options.caches.as_slice(),
            Asked::Create(options) => options.caches.as_slice(),
            _ => &[],
        }
    }
}

// A command that builds an image, or is a part of that.
fn phase_asked(alloc: Global, command: &str, words: &[String]) -> Result<Asked, WordsFault>
    ensures words { IsAnswer cause_of result (phase_chosen command.now (options_in (map string_bytes words.now))) }
    ensures limits { IfOk result AsksWithinLimits }
{
    if command == "detect" {
        detect_in(alloc, words).map(Asked::Detect)
    } else if command == "analyze" {
        analyze_in(alloc, words).map(Asked::Analyze)
    } else if command == "restore" {
        restore_in(alloc, words).map(Asked::Restore)
    } else if command == "build" {
        build_in(alloc, words).map(Asked::Build)
    } else if command == "export" {
        export_in(alloc, words).map(Asked::Export)
    } else {
        image_asked(alloc, command, words)
    }
}

// A command on whole images.
fn image_asked(alloc: Global, command: &str, words: &[String]) -> Result<Asked, WordsFault>
    ensures words { IsAnswer cause_of result (image_chosen command.now (options_in (map string_bytes words.now))) }
    ensures limits { IfOk result AsksWithinLimits }
{
    if command == "create" {
        create_in(alloc, words).map(Asked::Create)
    } else if command == "rebase" {
        rebase_in(alloc, words).map(Asked::Rebase)
    } else if command == "base" {
        base_in(alloc, words).map(Asked::Base)
    } else if command == "unpack" {
        unpack_in(alloc, words).map(Asked::Unpack)
    } else if command == "show" {
        show_in(alloc, words).map(Asked::Show)
    } else {
        store_asked(alloc, command, words)
    }
}

// A command on what is there already.
fn store_asked(alloc: Global, command: &str, words: &[String]) -> Result<Asked, WordsFault>
    ensures words { IsAnswer cause_of result (store_chosen command.now (options_in (map string_bytes words.now))) }
    ensures limits { IfOk result AsksWithinLimits }
{
    if command == "prune" {
        prune_in(alloc, words).map(Asked::Prune)
    } else if command == "verify" {
        verify_in(alloc, words).map(Asked::Verify)
    } else if command == "check" {
        check_in(alloc, words).map(Asked::Check)
    } else {
        Err(WordsFault::Usage)
    }
}

fn options_asked(alloc: Global, command: &str, words: &[String]) -> Result<Asked, WordsFault>
    ensures words { IsAnswer cause_of result (options_asked command.now (map string_bytes words.now)) }
    ensures limits { IfOk result AsksWithinLimits }
{
    phase_asked(alloc, command, words)
}

/// What a command and the words behind it ask for.
pub(crate) fn asked_of(alloc: Global, command: &str, words: &[String]) -> Result<Asked, WordsFault>
    ensures words { IsAnswer cause_of result (asked_of command.now (map string_bytes words.now)) }
    ensures limits { IfOk result AsksWithinLimits }
{
    if command == "launch" {
        launch_in(alloc, words).map(Asked::Launch)
    } else if command == "drill" {
        drill_in(words).map(Asked::Drill)
    } else {
        options_asked(alloc, command, words)
    }
}

fn command_asked(alloc: Global, words: &[String]) -> Result<Asked, WordsFault>
    ensures words { IsAnswer cause_of result (command_asked (map string_bytes words.now)) }
    ensures limits { IfOk result AsksWithinLimits }
{
    match words {
        [command, words @ ..] => asked_of(alloc, command.as_str(), words),
        [] => Err(WordsFault::Usage),
    }
}

// The launcher, started by its own name.
fn launcher_asked(alloc: Global, root: &str, words: &[String]) -> Result<Asked, WordsFault>
    ensures words { IsAnswer cause_of result (launcher_asked root.now (map string_bytes words.now)) }
    ensures limits { IfOk result AsksWithinLimits }
{
    launch_at(alloc, root, words).map(Asked::Launch)
}

// The launcher, started by the name of a process.
fn process_asked(
    alloc: Global,
    root: &str,
    kind: &str,
    words: &[String],
) -> Result<Asked, WordsFault>
    requires { IsTrue (is_process_type kind.now) }
    ensures words { IsAnswer cause_of result (process_asked root.now kind.now (map string_bytes words.now)) }
    ensures limits { IfOk result AsksWithinLimits }
{
    process_at(alloc, root, kind, words).map(Asked::Launch)
}

// What the program's own word and those behind it ask for.
fn program_asked(alloc: Global, program: &str, words: &[String]) -> Result<Asked, WordsFault>
    ensures words { IsAnswer cause_of result (asked_by (program.now ∷ map string_bytes words.now)) }
    ensures limits { IfOk result AsksWithinLimits }
{
    if is_launcher(program) {
        return launcher_asked(alloc, root_of(program), words);
    }
    match process_type(program) {
        Some(kind) => process_asked(alloc, root_of(program), kind, words),
        None => command_asked(alloc, words),
    }
}

/// What the words of a command line ask for. The first is the program's own.
pub fn read_words(alloc: Global, words: &[String]) -> Result<Asked, WordsFault>
    ensures words { IsAnswer cause_of result (asked_by (map string_bytes words.now)) }
    ensures limits { IfOk result AsksWithinLimits }
{
    match words {
        [program, words @ ..] => program_asked(alloc, program.as_str(), words),
        [] => Err(WordsFault::Usage),
    }
}

// The folders that the words name.
ghost use Rattle.std.specs.Prelude.{◌≡◌, ◌<◌, ◌^◌, ◌++◌, IfOk, OnOk, length, map, string_bytes};
ghost use Rattle.cnb_words.specs.Words.{AsksWithinLimits, caches_asked};
ghost use Rattle.cnb_start.specs.Folders.{caches_by};

use crate::warnings::warn;
use cnb_progress::Phases;
use cnb_words::{Asked, CreateWords, WordsFault, read_words};
use cnb_world::{List, Memory, Path, PathFault};
use std::alloc::Global;
use std::mem::drop;

/// The folders of the caches, in the order of the words; those that one process at a time writes below; the store's part
/// whose documents have to stay as they were read; and those by which the phases of the command are told apart.
#[derive(Drop)]
pub(crate) struct Folders {
    pub(crate) caches: List<Path>,
    pub(crate) guarded: Vec<GuardedFolder>,
    pub(crate) watched: List<Path>,
    pub(crate) phases: Phases,
    /// Whether the command fills the caches.
    pub(crate) fills_caches: bool,
}

/// A folder that one process at a time writes below, and where in it reading is enough to wait for the others.
#[derive(Drop)]
pub(crate) struct GuardedFolder {
    pub(crate) folder: Path,
    pub(crate) read: Option<Path>,
}

fn push_copies(alloc: Global, copies: &mut List<Path>, folders: &[Path]) -> Result<(), Memory>
    ensures { OnOk result (copies.new ≡ copies.old ++ folders.now) }
{
    for folder in folders {
        copies.push(folder.copy(alloc)?)?;
    }
    Ok(())
}

// The work folder, the layers folder and the store, where the command may write below them: in this order, in which
// their locks are taken.
fn guarded_by(asked: &Asked) -> [Option<&Path>; 3] {
    match asked {
        Asked::Detect(options) => [Some(&options.choice.work), None, None],
        Asked::Analyze(options) => [Some(&options.work), None, None],
        Asked::Restore(options) => [None, Some(&options.layers), None],
        Asked::Build(options) => [Some(&options.work), Some(&options.layers), None],
        Asked::Create(options) => [
            Some(&options.detect.work),
            Some(&options.layers),
            Some(&options.store),
        ],
        Asked::Export(options) => [None, None, Some(&options.store)],
        Asked::Rebase(options) => [None, None, Some(&options.store)],
        Asked::Base(options) => [None, None, Some(&options.store)],
        Asked::Prune(options) => [None, None, Some(&options.store)],
        Asked::Unpack(_)
        | Asked::Show(_)
        | Asked::Verify(_)
        | Asked::Check(_)
        | Asked::Drill(_)
        | Asked::Launch(_) => [None, None, None],
    }
}

// What is read below a guarded folder before it is written, and has to stay as it is until then: all of the store, where
// documents are read, changed and written again or decide what is removed; and the trees of the store, where those that
// are there are not written again. A build is not to keep others waiting while its buildpacks run, so `create` waits when
// it comes to the trees.
fn read_first(alloc: Global, asked: &Asked, folder: &Path) -> Result<Option<Path>, Memory> {
    match asked {
        Asked::Export(_) | Asked::Rebase(_) | Asked::Prune(_) => Ok(Some(folder.copy(alloc)?)),
        Asked::Create(options) if is_same(&options.store, folder) => {
            Ok(Some(trees_of(alloc, folder)?))
        }
        Asked::Base(_) => Ok(Some(trees_of(alloc, folder)?)),
        _ => Ok(None),
    }
}

fn is_same(one: &Path, other: &Path) -> bool {
    one.as_str() == other.as_str()
}

// The documents of the store that a command reads more than once.
fn push_watched(alloc: Global, watched: &mut List<Path>, asked: &Asked) -> Result<(), Memory> {
    match asked {
        Asked::Create(options) => push_documents(alloc, watched, &options.store),
        Asked::Export(options) => push_documents(alloc, watched, &options.store),
        _ => Ok(()),
    }
}

fn push_documents(alloc: Global, watched: &mut List<Path>, store: &Path) -> Result<(), Memory> {
    watched.push(below(alloc, store, "images")?)?;
    watched.push(below(alloc, store, "runs")?)
}

fn push_guarded(
    alloc: Global,
    guarded: &mut Vec<GuardedFolder>,
    asked: &Asked,
) -> Result<(), Memory> {
    for folder in guarded_by(asked) {
        if let Some(folder) = folder {
            let read = read_first(alloc, asked, folder)?;
            let folder = folder.copy(alloc)?;
            guarded.push(GuardedFolder { folder, read })?;
        }
    }
    Ok(())
}

fn trees_of(alloc: Global, store: &Path) -> Result<Path, Memory> {
    below(alloc, store, "trees")
}

fn below(alloc: Global, store: &Path, name: &str) -> Result<Path, Memory> {
    match store.join(alloc, name) {
        Ok(path) => Ok(path),
        Err(PathFault::Memory) => Err(Memory),
        // A path that is too long has nothing below it.
        Err(PathFault::NotPath) => store.copy(alloc),
    }
}

// The phases of `create`. Other commands have one.
fn phases_of(alloc: Global, asked: &Asked) -> Result<Phases, Memory> {
    let mut phases = Phases::none(alloc);
    let pushed = match asked {
        Asked::Create(options) => push_phases(alloc, &mut phases, options),
        _ => Ok(()),
    };
    match pushed {
        Ok(()) => Ok(phases),
        Err(Memory) => Err(Memory),
    }
}

fn push_phases(alloc: Global, phases: &mut Phases, options: &CreateWords) -> Result<(), Memory> {
    phases.push("ANALYZING", Some(options.store.copy(alloc)?))?;
    phases.push("DETECTING", Some(options.detect.order.copy(alloc)?))?;
    phases.push("RESTORING", Some(options.layers.copy(alloc)?))?;
    phases.push("BUILDING", None)?;
    phases.push("EXPORTING", Some(trees_of(alloc, &options.store)?))
}

fn fills_caches(asked: &Asked) -> bool {
    matches!(asked, Asked::Create(_) | Asked::Export(_))
}

// The folders of what is asked for.
fn folders_of(alloc: Global, asked: &Asked) -> Result<Folders, Memory>
    requires { AsksWithinLimits asked.now }
    ensures caches { IfOk result (λ folders. folders.caches ≡ caches_asked asked.now) }
    ensures few { IfOk result (λ folders. length folders.caches < 2 ^ 32) }
{
    let mut guarded = Vec::new(alloc);
    push_guarded(alloc, &mut guarded, asked)?;
    let mut watched = List::new(alloc);
    push_watched(alloc, &mut watched, asked)?;
    let phases = phases_of(alloc, asked)?;
    let mut caches = List::new(alloc);
    push_copies(alloc, &mut caches, asked.caches())?;
    Ok(Folders {
        caches,
        guarded,
        watched,
        phases,
        fills_caches: fills_caches(asked),
    })
}

/// The folders that the words name. Words that are refused name none. What is wrong with the folders of a build is said
/// on standard error.
pub(crate) fn folders_in(rt: &HostRuntime, words: &[String]) -> Result<Folders, Memory>
    ensures caches { IfOk result (λ folders. folders.caches ≡ caches_by (map string_bytes words.now)) }
    ensures few { IfOk result (λ folders. length folders.caches < 2 ^ 32) }
{
    let alloc = rt.alloc();
    match read_words(alloc, words) {
        Ok(asked) => {
            warn(rt, &asked);
            let folders = folders_of(alloc, &asked);
            drop(asked);
            folders
        }
        Err(WordsFault::Memory) => Err(Memory),
        Err(_) => Ok(Folders {
            caches: List::new(alloc),
            guarded: Vec::new(alloc),
            watched: List::new(alloc),
            phases: Phases::none(alloc),
            fills_caches: false,
        }),
    }
}

// The processes of an image: which is the default, where it starts, and the links that stand for their types.
ghost use Rattle.std.specs.Prelude.{◌≡◌, IfOk, IsTrue, OnOk, Some};
ghost use Rattle.std.specs.Option.{option_copied};
ghost use Rattle.cnb_world.specs.Path.{is_short_path};
ghost use Rattle.cnb_export.specs.Processes.{default_of, entrypoint_of, has_type, links_of};

use crate::rows::constant;
use cnb_toml::{ProcType, Process};
use cnb_world::{List, Memory, Path, Text};
use std::alloc::Global;
use tree_canon::{Named, Node};

/// The type of the default process, if there is one. A process that says so makes its type the default, and one that
/// doesn't clears its type (buildpack.md, "launch.toml (TOML)", `processes.default`).
pub(crate) fn default_of(processes: &[Process]) -> Option<&ProcType>
    ensures { option_copied result ≡ default_of processes.now }
{
    let mut default = None;
    for process in processes {
        if process.default {
            default = Some(&process.kind);
        } else if is_type(default, &process.kind) {
            default = None;
        }
    }
    default
}

fn is_type(default: Option<&ProcType>, kind: &ProcType) -> bool
    ensures { result ≡ has_type (option_copied default.entry) kind.now }
{
    match default {
        Some(default) => *default == *kind,
        None => false,
    }
}

#[tactic(auto, using(cnb_env::proofs::TypeLemmas::type_is_part, crate::proofs::PlaceLaws::program_short))]
fn process_path(alloc: Global, kind: &ProcType) -> Result<Path, Memory>
    ensures path { IfOk result (λ path. path ≡ entrypoint_of (Some kind.now)) }
    ensures short { OnOk result (IsTrue (is_short_path (entrypoint_of (Some kind.now)))) }
{
    let folder = constant(alloc, "/cnb/process")?;
    let name = kind.as_str();
    folder.below(alloc, name)
}

/// The program that an image starts: the launcher, by the name of the default process where there is one.
pub(crate) fn entrypoint(alloc: Global, default: Option<&ProcType>) -> Result<Path, Memory>
    ensures path { IfOk result (λ path. path ≡ entrypoint_of (option_copied default.entry)) }
    ensures short { OnOk result (IsTrue (is_short_path (entrypoint_of (option_copied default.entry)))) }
{
    match default {
        Some(kind) => process_path(alloc, kind),
        None => constant(alloc, "/cnb/lifecycle/launcher"),
    }
}

/// A folder that has, for each process, a link of its type to the launcher.
pub(crate) fn links(alloc: Global, processes: &[Process]) -> Result<Node, Memory>
    ensures { IfOk result (λ node. node ≡ links_of processes.now) }
{
    let mut links = List::new(alloc);
    for process in processes {
        links.push(Named {
            name: Text::of(alloc, process.kind.as_str())?,
            node: Node::Link {
                target: Text::of(alloc, "../lifecycle/launcher")?,
            },
        })?;
    }
    Ok(Node::Folder(links))
}

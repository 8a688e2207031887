// The phases of a command, each known by the first path that it reaches.

use cnb_world::{Memory, Path};
use std::alloc::Global;

#[derive(Drop)]
struct Phase {
    name: &'static str,
    folder: Option<Path>,
}

impl Phase {
    // Whether it begins with a call at this path, or, without one, with a child.
    fn is_begun_by(&self, path: Option<&str>) -> bool {
        match (&self.folder, path) {
            (Some(folder), Some(path)) => is_within(folder.as_str(), path),
            (None, None) => true,
            (Some(_), None) | (None, Some(_)) => false,
        }
    }
}

/// The phases of a command in their order, and how many of them have begun. A phase begins, once the one before it has, with
/// the first call at or below its folder, or, without one, with the first child.
#[derive(Drop)]
pub struct Phases {
    phases: Vec<Phase>,
    begun: usize,
}

impl Phases {
    pub fn none(alloc: Global) -> Phases {
        Phases {
            phases: Vec::new(alloc),
            begun: 0,
        }
    }

    /// Adds a phase behind the others.
    pub fn push(&mut self, name: &'static str, folder: Option<Path>) -> Result<(), Memory> {
        Ok(self.phases.push(Phase { name, folder })?)
    }

    /// The next phase, where it begins with a call at this path, or, without one, with a child.
    pub(crate) fn begin(&mut self, path: Option<&str>) -> Option<&'static str> {
        match self.phases.as_slice().get(self.begun) {
            Some(phase) if phase.is_begun_by(path) => {
                self.begun = self.begun.saturating_add(1);
                Some(phase.name)
            }
            _ => None,
        }
    }
}

fn is_within(folder: &str, path: &str) -> bool {
    match path.strip_prefix(folder) {
        Some(rest) => rest.is_empty() || rest.starts_with('/') || folder == "/",
        None => false,
    }
}

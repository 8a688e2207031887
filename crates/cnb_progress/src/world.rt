// A world that says what is done.
ghost use Rattle.std.specs.Prelude.{◌≡◌};

use crate::level::Level;
use crate::phases::Phases;
use cnb_world::{
    Bytes, ChildFault, ChildJob, End, FileFault, Kind, List, Path, Text, World, parent_text,
};

/// A world that says on standard error which phase begins, which buildpack is built, and which files are read. Each
/// call is that of the world within.
#[derive(Drop)]
pub struct ProgressWorld<W: World + Drop, R: Eprint + AllocGlobal + Drop> {
    world: W,
    rt: R,
    level: Level,
    phases: Phases,
}

impl<W: World + Drop, R: Eprint + AllocGlobal + Drop> ProgressWorld<W, R> {
    pub fn new(world: W, rt: R, level: Level, phases: Phases) -> ProgressWorld<W, R> {
        ProgressWorld {
            world,
            rt,
            level,
            phases,
        }
    }

    /// The world within.
    pub fn within(&self) -> &W {
        &self.world
    }

    // Says which phase begins with a call at this path, or with a child.
    fn reach(&mut self, path: Option<&str>)
        ensures { self.new.world ≡ self.old.world }
    {
        if let Some(name) = self.phases.begin(path)
            && self.level.says_progress()
        {
            // Where standard error takes nothing, there is nobody to be informed.
            let _ = eprintln!(self.rt; "===> {name}");
        }
    }

    fn say_read(&self, path: &Path, at: u64) {
        if at == 0 && self.level.says_files() {
            let _ = eprintln!(self.rt; "read {}", path.as_str().escape_debug());
        }
    }

    fn say_built(&self, job: &ChildJob) {
        if self.level.says_progress()
            && let Some(folder) = built_in(job)
            && let Ok(id) = last_part(parent_text(folder)).replace(self.rt.alloc(), '_', "/")
        {
            let _ = eprintln!(self.rt;
                "building {}@{}",
                id.escape_debug(),
                last_part(folder).escape_debug()
            );
        }
    }
}

// The folder `<buildpacks>/<id>/<version>` of the buildpack whose build this child is, which it gets as a variable.
fn built_in(job: &ChildJob) -> Option<&str> {
    let folder = job.program.as_str().strip_suffix("/bin/build")?;
    match job.env.get("CNB_BUILDPACK_DIR") {
        Some(given) if given.as_str() == folder => Some(folder),
        _ => None,
    }
}

fn last_part(path: &str) -> &str {
    match path.strip_prefix(parent_text(path)) {
        Some(rest) => rest.strip_prefix('/').unwrap_or(rest),
        None => path,
    }
}

impl<W: World + Drop, R: Eprint + AllocGlobal + Drop> World for ProgressWorld<W, R> {
    ghost tree = { λ progress. W.tree progress.world };

    ghost file_faults = { λ progress. W.file_faults progress.world };

    ghost failed_at = { λ progress. W.failed_at progress.world };

    ghost child_faults = { λ progress. W.child_faults progress.world };

    ghost misused = { λ progress. W.misused progress.world };

    ghost runs = { λ progress. W.runs progress.world };

    ghost standing = { λ progress. W.standing progress.world };

    fn kind(&mut self, path: &Path) -> Result<Kind, FileFault> {
        self.reach(Some(path.as_str()));
        self.world.kind(path)
    }

    fn list(&mut self, path: &Path) -> Result<List<Text>, FileFault> {
        self.reach(Some(path.as_str()));
        self.world.list(path)
    }

    fn read(&mut self, path: &Path, at: u64, max: u64) -> Result<Bytes, FileFault> {
        self.reach(Some(path.as_str()));
        self.say_read(path, at);
        self.world.read(path, at, max)
    }

    fn create(&mut self, path: &Path, exec: bool) -> Result<(), FileFault> {
        self.reach(Some(path.as_str()));
        self.world.create(path, exec)
    }

    fn append(&mut self, path: &Path, bytes: &[u8]) -> Result<(), FileFault> {
        self.world.append(path, bytes)
    }

    fn make_folder(&mut self, path: &Path) -> Result<(), FileFault> {
        self.reach(Some(path.as_str()));
        self.world.make_folder(path)
    }

    fn rename(&mut self, old: &Path, new: &Path) -> Result<(), FileFault> {
        self.world.rename(old, new)
    }

    fn make_link(&mut self, path: &Path, target: &str) -> Result<(), FileFault> {
        self.reach(Some(path.as_str()));
        self.world.make_link(path, target)
    }

    fn read_link(&mut self, path: &Path) -> Result<Text, FileFault> {
        self.reach(Some(path.as_str()));
        self.world.read_link(path)
    }

    fn remove(&mut self, path: &Path) -> Result<(), FileFault> {
        self.reach(Some(path.as_str()));
        self.world.remove(path)
    }

    fn run(&mut self, job: &ChildJob) -> Result<End, ChildFault> {
        self.reach(None);
        self.say_built(job);
        self.world.run(job)
    }
}

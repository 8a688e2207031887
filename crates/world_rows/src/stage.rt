// Scripts of calls on the outside.
use crate::cache::{keep, recall};
use crate::children::{child_job, detect_job, end_text};
use crate::fault::LineFault;
use crate::files::{change, look};
use crate::texts::{add_line, cut};
use cnb_world::{Env, Shelf, Spawner, Text, World};
use row_files::RowFault;
use std::alloc::Global;
use std::process::Command;

/// A line of a script: a call, and what it is given, which has a first word and a rest.
#[derive(Clone, Copy)]
pub struct Line<'a> {
    pub call: &'a str,
    pub given: &'a str,
    pub first: &'a str,
    pub rest: &'a str,
}

impl Line<'_> {
    /// The line of a text.
    pub(crate) fn of(text: &str) -> Line<'_> {
        let (call, given) = cut(text);
        let (first, rest) = cut(given);
        Line {
            call,
            given,
            first,
            rest,
        }
    }
}

/// The outside on which a script is played: files and children, detect children, and a cache. Scripts write `~` for its
/// folder. Children get its environment.
#[derive(Drop)]
pub struct Stage<W: World + Drop, S: Spawner + Drop, C: Shelf> {
    pub rt: HostRuntime,
    pub folder: String,
    pub env: Env,
    pub world: W,
    pub spawner: S,
    pub cache: C,
}

impl<W: World + Drop, S: Spawner + Drop, C: Shelf> Stage<W, S, C> {
    /// Makes the calls of a script, and tells the answers, a line each.
    pub(crate) fn play(&mut self, script: &str) -> Result<String, RowFault> {
        let alloc = self.rt.alloc();
        let script = script.replace(alloc, "~", self.folder.as_str())?;
        let mut told = String::new(alloc);
        for line in script.as_str().lines() {
            add_line(&mut told, self.answer(alloc, Line::of(line)))?;
        }
        Ok(told.as_str().replace(alloc, self.folder.as_str(), "~")?)
    }

    fn answer(&mut self, alloc: Global, line: Line) -> Result<String, LineFault> {
        match line.call {
            "kind" | "list" | "read" | "read_link" | "read_whole" => {
                look(alloc, &mut self.world, line)
            }
            "cache_rows" | "cache_get" | "cache_read" => recall(alloc, &mut self.cache, line),
            "run" | "run_side" => self.run(alloc, line),
            "detect" => self.detect(alloc, line),
            _ => {
                self.act(alloc, line)?;
                Ok(String::from_str(alloc, "done")?)
            }
        }
    }

    // The calls that only change something.
    fn act(&mut self, alloc: Global, line: Line) -> Result<(), LineFault> {
        match line.call {
            "set" => {
                let name = Text::of(alloc, line.first)?;
                let value = Text::of(alloc, line.rest)?;
                Ok(self.env.set(name, value)?)
            }
            "shell" => self.shell(alloc, line.given),
            "cache_set_rows" | "cache_put" | "cache_begin" | "cache_append" | "cache_keep" => {
                keep(alloc, &mut self.cache, line)
            }
            _ => change(alloc, &mut self.world, line),
        }
    }

    fn run(&mut self, alloc: Global, line: Line) -> Result<String, LineFault> {
        let job = child_job(alloc, self.folder.as_str(), &self.env, line)?;
        let end = self.world.run(&job)?;
        Ok(end_text(alloc, end.code, false, end.side.as_slice())?)
    }

    fn detect(&mut self, alloc: Global, line: Line) -> Result<String, LineFault> {
        let job = detect_job(alloc, self.folder.as_str(), &self.env, line)?;
        let probed = self.spawner.detect(&job)?;
        let passed = probed.passed_code();
        Ok(end_text(alloc, probed.code, passed, probed.plan.as_slice())?)
    }

    // Runs a command of the shell in the folder of the system.
    fn shell(&self, alloc: Global, command: &str) -> Result<(), LineFault> {
        let mut shell = Command::new(alloc, "/bin/sh")?;
        shell.arg("-c")?.arg(command)?;
        shell.current_dir(self.folder.as_str())?;
        if shell.status(&self.rt)?.success() {
            Ok(())
        } else {
            Err(LineFault::Failed)
        }
    }
}

// What is said and done once the command has ended.

use crate::starting::MainStarted;
use cnb_host::sweep_cache;
use cnb_progress::explain_refusal;
use std::alloc::AllocError;

/// Says on standard error why the command was refused, if it was, and after a command that was done removes from the caches that
/// it filled what their new rows no longer name.
pub fn end(rt: &HostRuntime, started: &MainStarted, code: u8) {
    explain(rt, started);
    explain_failure(rt, started);
    if code == 0 {
        sweep_caches(rt, started);
    }
}

// Says on standard error what explains the refusal that was printed, if one was.
fn explain(rt: &HostRuntime, started: &MainStarted) {
    let line = started.out.refusal();
    if line.starts_with("error 20 ") || line.starts_with("error 21 ") {
        for spawner in started.spawners.as_slice() {
            spawner.explain();
        }
    }
    explain_refusal(rt, line, started.words.as_slice(), &started.env);
}

// Says on standard error why the call failed that ended the command.
fn explain_failure(rt: &HostRuntime, started: &MainStarted) {
    let line = started.out.refusal();
    if line.starts_with("error 2 ") {
        say(rt, started.world.within().file_failure());
    } else if line == "error 5 Child" {
        say(rt, started.world.within().child_failure());
        for spawner in started.spawners.as_slice() {
            say(rt, spawner.within().failure());
        }
    }
}

fn say(rt: &HostRuntime, failure: Result<Option<String>, AllocError>) {
    if let Ok(Some(text)) = failure {
        let _ = eprintln!(rt; "{text}");
    }
}

// Once the caches have their new rows, removes what these no longer name.
fn sweep_caches(rt: &HostRuntime, started: &MainStarted) {
    if started.fills_caches {
        for folder in started.caches.as_slice() {
            sweep_cache(rt, folder);
        }
    }
}

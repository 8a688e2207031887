//! The program `lifecycle`: over the files, the detect children and the standard output of the system.
#![tactic(auto)]

mod serving;

ghost use Rattle.std.specs.Prelude.{◌≡◌, ◌<◌, ◌^◌, length};

use cnb_start::{MainStarted, Unstarted, end, fill_closed, start};
use serving::serve;
use std::process::ExitCode;
use std::thread::Threads;

// Does what the process was started for, and returns the exit status.
fn run<R: Threads + Sync>(
    threads: &R,
    rt: &HostRuntime,
    started: &mut MainStarted,
) -> Result<u8, Unstarted>
    requires spawners { length started.old.spawners.items ≡ 64 }
    requires few { length started.old.caches < 2 ^ 32 }
{
    let code = serve(threads, rt, started)?;
    end(rt, started, code);
    Ok(code)
}

fn main(rt: HostRuntime) -> ExitCode {
    let _placeholders = fill_closed(&rt);
    let mut started = match start(&rt) {
        Ok(started) => started,
        Err(fault) => return ExitCode::from(fault.code()),
    };
    match run(&rt, &rt, &mut started) {
        Ok(code) => ExitCode::from(code),
        Err(fault) => ExitCode::from(fault.code()),
    }
}

// Programs that are looked up along PATH.
//
// The PATH of an image begins with the folder of its processes, where each is a link to the launcher. A process that is
// named like its own program would start the launcher for ever. So the launcher passes over itself.

use crate::cause::Cause;
use crate::fault::HostFault;
use crate::locks::is_same;
use cnb_world::{ChildJob, Env};
use std::alloc::Global;
use std::fs;
use std::fs::Metadata;
use std::os::unix::fs::MetadataExt;
use std::rt::Files;

/// The file that this process was started from.
const ITSELF: &str = "/proc/self/exe";

/// The path of a job's program, where looking it up along PATH finds this very program first.
pub fn other_program<R: Files + AllocGlobal>(
    rt: &R,
    job: &ChildJob,
) -> Result<Option<String>, HostFault> {
    let program = job.program.as_str();
    if program.is_empty() || program.contains('/') {
        return Ok(None);
    }
    match fs::metadata(rt, ITSELF) {
        Ok(itself) => look_up(rt, program, search_path(&job.env), &itself),
        Err(_) => Ok(None),
    }
}

fn search_path(env: &Env) -> &str {
    match env.get("PATH") {
        Some(path) => path.as_str(),
        None => "",
    }
}

fn look_up<R: Files + AllocGlobal>(
    rt: &R,
    program: &str,
    search_path: &str,
    itself: &Metadata,
) -> Result<Option<String>, HostFault> {
    let mut is_passed = false;
    for folder in search_path.split(':') {
        let path = joined(rt.alloc(), folder, program)?;
        match found_at(rt, path.as_str()) {
            Some(found) if is_same(&found, itself) => is_passed = true,
            Some(_) => return Ok(if is_passed { Some(path) } else { None }),
            None => {}
        }
    }
    if is_passed {
        return Err(HostFault::Failed(Cause::NotOnPath));
    }
    Ok(None)
}

fn joined(alloc: Global, folder: &str, program: &str) -> Result<String, HostFault> {
    Ok(format!(in alloc; "{folder}/{program}")?)
}

// What the system says of the program at a path. One that is relative is looked for by the system alone.
fn found_at(rt: &impl Files, path: &str) -> Option<Metadata> {
    if !path.starts_with('/') {
        return None;
    }
    match fs::metadata(rt, path) {
        Ok(found) if found.is_file() && found.mode() & 0o111 != 0 => Some(found),
        _ => None,
    }
}

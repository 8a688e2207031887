// Programs that can't be started: what is at their path.

use crate::cause::Cause;
use crate::fault::HostFault;
use crate::files::{kind_of, read_part};
use cnb_world::Kind;
use std::fs;
use std::fs::Metadata;
use std::io::ErrorKind;
use std::os::unix::fs::{FileExt, MetadataExt};
use std::rt::Files;

/// How much of a program is looked at: as much as the system does.
const HEAD: u64 = 256;

/// Any of the rights to execute a file.
const RUN: u32 = 0o111;

/// Refuses a program that is neither for the machine nor a script whose interpreter is there.
pub fn check_program<R: Files + AllocGlobal>(rt: &R, program: &str) -> Result<(), HostFault>
where
    R::File: FileExt,
{
    let head = read_part(rt, rt.alloc(), program, 0, HEAD)?;
    match unfit_head(rt, head.as_slice()) {
        Some(cause) => Err(HostFault::Failed(cause)),
        None => Ok(()),
    }
}

/// Why a program was not started that the system refused in this folder with this fault, as far as can be seen.
pub fn why_unstarted<R: Files + AllocGlobal>(
    rt: &R,
    program: &str,
    folder: &str,
    fault: HostFault,
) -> HostFault
where
    R::File: FileExt,
{
    match fault {
        HostFault::Memory => HostFault::Memory,
        HostFault::Failed(cause) => HostFault::Failed(unstarted(rt, program, folder).unwrap_or(
            cause,
        )),
    }
}

fn unstarted<R: Files + AllocGlobal>(rt: &R, program: &str, folder: &str) -> Option<Cause>
where
    R::File: FileExt,
{
    if !is_folder(rt, folder) {
        return Some(Cause::NoWorkingFolder);
    }
    if !program.contains('/') {
        return Some(Cause::NotOnPath);
    }
    // A path of its own that is not absolute is looked for in the child's folder, and not in this process's.
    if !program.starts_with('/') {
        return None;
    }
    match fs::metadata(rt, program) {
        Ok(found) => unfit_file(rt, program, &found),
        Err(error) if error.kind() == ErrorKind::NotFound => Some(Cause::Absent),
        Err(error) => Some(Cause::of(&error)),
    }
}

fn is_folder(rt: &impl Files, path: &str) -> bool {
    match fs::metadata(rt, path) {
        Ok(found) => found.is_dir(),
        Err(_) => false,
    }
}

fn unfit_file<R: Files + AllocGlobal>(rt: &R, program: &str, found: &Metadata) -> Option<Cause>
where
    R::File: FileExt,
{
    match kind_of(found) {
        Kind::Folder => return Some(Cause::Folder),
        Kind::Odd => return Some(Cause::Odd),
        _ => {}
    }
    if found.mode() & RUN == 0 {
        return Some(Cause::NotExecutable);
    }
    match read_part(rt, rt.alloc(), program, 0, HEAD) {
        Ok(head) => unfit_head(rt, head.as_slice()),
        Err(_) => None,
    }
}

// Why a program that begins like this can't be started.
fn unfit_head(rt: &impl Files, head: &[u8]) -> Option<Cause> {
    if head.starts_with(b"\x7fELF") {
        return None;
    }
    let Some(line) = head.strip_prefix(b"#!".as_slice()) else {
        return Some(Cause::NotProgram);
    };
    let name = interpreter(line);
    match std::str::from_utf8(name) {
        Ok(path) if is_program(rt, path) => None,
        _ if name.ends_with(b"\r") => Some(Cause::CarriageReturn),
        _ => Some(Cause::NoInterpreter),
    }
}

fn is_blank(byte: u8) -> bool {
    byte == b' ' || byte == b'\t'
}

// The first word of a script's first line, which names its interpreter. Behind it there may be any bytes.
fn interpreter(line: &[u8]) -> &[u8] {
    for start in 0..line.len() {
        if !is_blank(line[start]) {
            return first_word(&line[start..]);
        }
    }
    &[]
}

fn first_word(text: &[u8]) -> &[u8] {
    for end in 0..text.len() {
        if is_blank(text[end]) || text[end] == b'\n' {
            return &text[..end];
        }
    }
    text
}

fn is_program(rt: &impl Files, path: &str) -> bool {
    match fs::metadata(rt, path) {
        Ok(found) => found.is_file() && found.mode() & RUN != 0,
        Err(_) => false,
    }
}

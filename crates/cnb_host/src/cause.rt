// What made a call of the system fail, in words for a person.

use std::alloc::{AllocError, Global};
use std::io;
use std::io::ErrorKind;

/// What made a call on files, a child or a cache fail.
#[derive(Clone, Copy, PartialEq, Eq)]
pub enum Cause {
    /// The system refused the call, with this number.
    System(i32),
    /// Nothing is at the path.
    Absent,
    /// A file is at the path, where a folder is wanted.
    File,
    /// A folder is at the path.
    Folder,
    /// A link is at the path, and links are not followed there.
    Link,
    /// A pipe, a socket or a device is at the path.
    Odd,
    /// A name in the folder, or the target of the link, is not UTF-8.
    NotText,
    /// Another process has put another file there.
    Replaced,
    /// Another process has held the folder's lock for as long as this one waits.
    Locked,
    /// Bytes came before a file was begun for them.
    NotBegun,
    /// No folder of PATH has the program.
    NotOnPath,
    /// The child's working folder is not there.
    NoWorkingFolder,
    /// Nobody may execute the program.
    NotExecutable,
    /// The program is neither a script nor for this machine.
    NotProgram,
    /// The interpreter that the script names is not there.
    NoInterpreter,
    /// The script's first line ends in a carriage return, which becomes a part of the interpreter's name.
    CarriageReturn,
    /// The program's own loader or library is not there.
    NoLoader,
    /// The shell that starts the program ended before it did.
    NotStarted,
    /// Nothing more is known.
    Unknown,
}

impl Cause {
    /// What the system says of a call that it refused.
    pub fn of(error: &io::Error) -> Cause {
        match error.raw_os_error() {
            Some(number) => Cause::System(number),
            None if error.kind() == ErrorKind::InvalidFilename => Cause::NotText,
            None => Cause::Unknown,
        }
    }

    /// The cause in a few words.
    pub fn text(self, alloc: Global) -> Result<String, AllocError> {
        match self {
            Cause::System(number) => system_text(alloc, number),
            known => String::from_str(alloc, known.known_text()),
        }
    }

    // The words of a cause that is not a number of the system.
    fn known_text(self) -> &'static str {
        match self {
            Cause::System(_) | Cause::Unknown => "it failed",
            Cause::Absent => "nothing is there",
            Cause::File => "a file is there, not a folder",
            Cause::Folder => "a folder is there",
            Cause::Link => "a link is there, which is not followed",
            Cause::Odd => "a pipe, a socket or a device is there",
            Cause::NotText => "a name or a link's target is not UTF-8",
            Cause::Replaced => "another process has replaced the file meanwhile",
            Cause::Locked => "another process has written below the folder for five minutes",
            Cause::NotBegun => "no file was begun for the bytes",
            Cause::NotOnPath => "no folder of PATH has this program",
            Cause::NoWorkingFolder => "its working folder is not there",
            Cause::NotExecutable => "the file is not executable",
            Cause::NotProgram => "the file is neither a script nor a program for this machine",
            Cause::NoInterpreter => "the interpreter of its first line is not there",
            Cause::CarriageReturn => "its first line ends in a carriage return",
            Cause::NoLoader => "the program's loader is not there",
            Cause::NotStarted => "the shell could not start it",
        }
    }

    /// What can be done about it, where that is known.
    pub fn remedy(self) -> Option<&'static str> {
        match self {
            Cause::System(1 | 13) => Some("give this user the right to it, or run as its owner"),
            Cause::System(28 | 122) => Some("make room on the disk, and run the command again"),
            Cause::System(30) => Some("name a folder that can be written"),
            Cause::System(24) => Some("raise the limit of open files (ulimit -n)"),
            Cause::Link => Some("name the folder or file that the link leads to"),
            Cause::Replaced => Some("run one build of an image at a time"),
            Cause::Locked => Some("run it again when the other process has ended"),
            Cause::NotExecutable => Some("chmod +x it"),
            Cause::NotProgram => Some("begin a script with #! and its interpreter"),
            Cause::NoInterpreter => Some("install the interpreter, or correct the line behind #!"),
            Cause::CarriageReturn => Some("save the file with line feeds alone"),
            _ => None,
        }
    }
}

fn system_text(alloc: Global, number: i32) -> Result<String, AllocError> {
    match known_number(number) {
        Some(text) => String::from_str(alloc, text),
        None => format!(in alloc; "error {number} of the system"),
    }
}

// What Linux means by a number (errno).
fn known_number(number: i32) -> Option<&'static str> {
    match number {
        1 => Some("operation not permitted"),
        2 => Some("no such file or folder"),
        4 => Some("interrupted"),
        5 => Some("input/output error"),
        7 => Some("the arguments and the environment are too long"),
        8 => Some("not a program for this machine"),
        11 => Some("too many processes or too little memory for another one"),
        13 => Some("permission denied"),
        16 => Some("in use"),
        17 => Some("something is there already"),
        18 => Some("on another file system"),
        20 => Some("not a folder"),
        21 => Some("is a folder"),
        23 | 24 => Some("too many open files"),
        26 => Some("the program is open for writing"),
        27 => Some("the file would be too large"),
        28 => Some("no room left on the device"),
        30 => Some("the file system is read-only"),
        36 => Some("a name or the path is too long"),
        39 => Some("the folder is not empty"),
        40 => Some("too many links on the way"),
        116 => Some("the network file system has lost the file"),
        122 => Some("the disk quota is exceeded"),
        _ => None,
    }
}

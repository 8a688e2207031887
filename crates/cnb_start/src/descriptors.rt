// Standard input and the two outputs, where the caller has closed one.
//
// The system gives the next file that is opened the lowest free number. With standard output closed, that would be 1, and
// what is printed would go into a file that is laid.

use std::fs::File;
use std::os::fd::AsRawFd;

/// The number of standard error, the last of the three.
const LAST: i32 = 2;

/// What takes the place of closed descriptors, for as long as it is kept.
#[derive(Drop)]
pub struct Placeholders {
    kept: [Option<File>; 3],
}

/// Opens `/dev/null` to be read in place of each of the three that is closed. So standard input has no bytes, and what is
/// printed is refused as where nothing takes it.
pub fn fill_closed(rt: &HostRuntime) -> Placeholders {
    Placeholders {
        kept: [placeholder(rt), placeholder(rt), placeholder(rt)],
    }
}

// A file that has one of the three numbers, while one of them is free. Where there is no such device, a folder will do.
fn placeholder(rt: &HostRuntime) -> Option<File> {
    let opened = match File::open(rt, "/dev/null") {
        Ok(file) => Ok(file),
        Err(_) => File::open(rt, "/"),
    };
    match opened {
        Ok(file) if file.as_raw_fd() <= LAST => Some(file),
        _ => None,
    }
}

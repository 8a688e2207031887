// What is read of the bytes that a child writes.
ghost use Rattle.std.specs.Prelude.{◌≡◌, ◌≤◌, length, take};

use crate::limits::LONGEST_DOCUMENT;

/// One byte more than a document may have.
pub const MAX_READ: usize = LONGEST_DOCUMENT + 1;

/// The first bytes, at most `max` of them.
pub fn first_bytes(bytes: &[u8], max: usize) -> &[u8]
    ensures first { result.now ≡ take max bytes.now }
    ensures bound { length result.now ≤ max }
{
    if bytes.len() <= max {
        bytes
    } else {
        &bytes[..max]
    }
}

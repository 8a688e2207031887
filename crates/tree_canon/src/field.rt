// The values of whole fields.
ghost use Rattle.std.specs.Prelude.{◌≡◌, IfOk, length, true};
ghost use Rattle.std.specs.Int.{from_be_bytes, w16, w32, w64};
ghost use Rattle.std.specs.Str.{is_utf8};
ghost use Rattle.tree_canon.specs.Rules.{first_byte};

use cnb_world::{Memory, Text};
use std::alloc::Global;
use std::str;

/// The first byte.
pub fn first_byte(field: &[u8]) -> u8
    ensures { result ≡ first_byte field.now }
{
    match field {
        [b, ..] => *b,
        _ => 0,
    }
}

/// The number of two bytes.
pub fn u16_of(field: &[u8]) -> u16
    ensures { length field.now ≡ 2 → result ≡ from_be_bytes w16 field.now }
{
    match field {
        [a, b] => u16::from_be_bytes([*a, *b]),
        _ => 0,
    }
}

/// The number of four bytes.
pub fn u32_of(field: &[u8]) -> u32
    ensures { length field.now ≡ 4 → result ≡ from_be_bytes w32 field.now }
{
    match field {
        [a, b, c, d] => u32::from_be_bytes([*a, *b, *c, *d]),
        _ => 0,
    }
}

/// The number of eight bytes.
pub fn u64_of(field: &[u8]) -> u64
    ensures { length field.now ≡ 8 → result ≡ from_be_bytes w64 field.now }
{
    match field {
        [a, b, c, d, e, f, g, h] => u64::from_be_bytes([*a, *b, *c, *d, *e, *f, *g, *h]),
        _ => 0,
    }
}

/// The text of bytes that are UTF-8. They were judged before, so they are not looked at again.
pub fn text_of(alloc: Global, bytes: &[u8]) -> Result<Text, Memory>
    requires { is_utf8 bytes.now ≡ true }
    ensures { IfOk result (λ text. text ≡ bytes.now) }
{
    Text::of(alloc, unsafe { str::from_utf8_unchecked(bytes) })
}

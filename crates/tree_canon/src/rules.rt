// The rules of fields. Those of a name take the last name of its folder alone.
ghost use Rattle.std.specs.Prelude.{◌≡◌, ◌+◌, ◌≤◌, ◌&&◌, ◌||◌, ◌==◌, not, length, nat_le, slice_index};
ghost use Rattle.std.specs.Int.{from_be_bytes, w64};
ghost use Rattle.std.specs.Option.{option_copied};
ghost use Rattle.tree_canon.specs.declared.fault.Reason.TheVariants as reasons;
ghost use Rattle.tree_canon.specs.Spelling.{limit, magic};
ghost use Rattle.tree_canon.specs.Names.{is_name, is_target, follows};
ghost use Rattle.tree_canon.specs.Scanning.{field_width, own_reason_at, reason_at, IsWholeField};
ghost use Rattle.tree_canon.specs.Rules.{unless, either_reason, large_past, first_byte, is_tag, length_reason};

use crate::fault::Reason;
use crate::field::{first_byte, u16_of, u64_of};
use crate::fitting::{MAX_DEPTH, MAX_NAME, MAX_TARGET, follows, is_name, is_target};
use crate::next_field::NextField;
use crate::tree::MAX_LENGTH;
use cnb_world::List;

impl NextField {
    /// The first reason that a whole field gives. Of a file's contents no byte is asked for.
    #[inline(always)]
    pub fn reason_of(&self, depth: usize, at: u64, width: u64, part: &[u8]) -> Option<Reason>
        requires whole { IsWholeField self.now part.now }
        requires width { width ≡ field_width self.now }
        ensures { result ≡ reason_at depth at self.now part.now }
    {
        if is_past(at, width) {
            return Some(Reason::Large);
        }
        self.own_reason(depth, at, part)
    }

    #[inline(always)]
    fn own_reason(&self, depth: usize, at: u64, part: &[u8]) -> Option<Reason>
        requires whole { IsWholeField self.now part.now }
        requires at { at ≤ limit }
        ensures { result ≡ own_reason_at depth at self.now part.now }
    {
        match self {
            NextField::Magic(k) => magic_reason(*k, part),
            NextField::Tag => tag_reason(depth, part),
            NextField::Count => None,
            NextField::NameLength { left: _, last: _ } => length_reason(at + 2, MAX_NAME, part),
            NextField::Name {
                left: _,
                last,
                size: _,
            } => name_reason(bytes_of(last), part),
            NextField::Executable => executable_reason(part),
            NextField::FileLength { exec: _ } => file_length_reason(at + 8, part),
            NextField::Contents { size: _, taken: _ } => None,
            NextField::TargetLength => length_reason(at + 2, MAX_TARGET, part),
            NextField::Target { size: _ } => target_reason(part),
            NextField::End => Some(Reason::Rest),
        }
    }
}

fn bytes_of(name: &Option<List<u8>>) -> Option<&[u8]>
    ensures { option_copied result ≡ name.now }
{
    match name {
        Some(name) => Some(name.as_slice()),
        None => None,
    }
}

/// Whether so many bytes more are more than a spelling may have.
fn is_past(at: u64, more: u64) -> bool
    ensures { result ≡ not (nat_le (at + more) limit) }
{
    at > MAX_LENGTH || more > MAX_LENGTH - at
}

fn magic_reason(k: u8, field: &[u8]) -> Option<Reason>
    ensures { result ≡ unless (first_byte field.now == slice_index magic k) reasons.Magic }
{
    let wanted = match k {
        0 => b'C',
        1 => b'N',
        2 => b'B',
        3 => b'T',
        4 => 1,
        _ => 0,
    };
    if first_byte(field) == wanted {
        None
    } else {
        Some(Reason::Magic)
    }
}

fn tag_reason(depth: usize, field: &[u8]) -> Option<Reason>
    ensures { result ≡ either_reason (unless (nat_le depth 64) reasons.Deep)
        (unless (is_tag (first_byte field.now)) reasons.Tag) }
{
    if depth > MAX_DEPTH {
        return Some(Reason::Deep);
    }
    let tag = first_byte(field);
    if tag == b'D' || tag == b'F' || tag == b'L' {
        None
    } else {
        Some(Reason::Tag)
    }
}

fn length_reason(end: u64, most: u16, field: &[u8]) -> Option<Reason>
    requires { length field.now ≡ 2 }
    ensures { result ≡ length_reason end most field.now }
{
    let size = u16_of(field);
    if is_past(end, size as u64) {
        return Some(Reason::Large);
    }
    if 0 < size && size <= most {
        None
    } else {
        Some(Reason::Name)
    }
}

fn name_reason(last: Option<&[u8]>, field: &[u8]) -> Option<Reason>
    ensures { result ≡ either_reason (unless (is_name field.now) reasons.Name)
        (unless (follows (option_copied last.entry) field.now) reasons.Order) }
{
    if !is_name(field) {
        return Some(Reason::Name);
    }
    if follows(last, field) {
        None
    } else {
        Some(Reason::Order)
    }
}

fn executable_reason(field: &[u8]) -> Option<Reason>
    ensures { result ≡ unless (first_byte field.now == 0 || first_byte field.now == 1) reasons.Exec }
{
    let b = first_byte(field);
    if b == 0 || b == 1 {
        None
    } else {
        Some(Reason::Exec)
    }
}

fn file_length_reason(end: u64, field: &[u8]) -> Option<Reason>
    requires { length field.now ≡ 8 }
    ensures { result ≡ large_past (end + from_be_bytes w64 field.now) }
{
    if is_past(end, u64_of(field)) {
        return Some(Reason::Large);
    }
    None
}

fn target_reason(field: &[u8]) -> Option<Reason>
    ensures { result ≡ unless (is_target field.now) reasons.Name }
{
    if is_target(field) {
        None
    } else {
        Some(Reason::Name)
    }
}

// The parts of lines: numbers, codes, plans and steps.
ghost use Rattle.std.specs.Prelude.{◌≡◌, ◌≤◌, ◌^◌, ◌<◌, ◌==◌, Some, None, IfSome, MatchOption, length, option_and_then};
ghost use Rattle.std.specs.Prelude.{position, pos, neg_ℤ, take, drop, true};
ghost use Rattle.std.specs.Char.{is_ascii_digit};
ghost use Rattle.std.specs.List.{list_all};
ghost use Rattle.std.specs.Option.{option_map};
ghost use Rattle.std.specs.Str.Parse.{digits_value};
ghost use Rattle.detect_record.specs.Forms.{up_to, code_in, cut, has_leading_zero, is_decimal, is_lower_digit};
ghost use Rattle.detect_record.specs.Forms.{number_in, number_to, plan_in, side_in, signed_in, step_in, steps_in};
ghost use Rattle.detect_record.specs.Reading.{IsReadAs};

use crate::line_fault::LineFault;
use crate::parts::{Side, Step};
use cnb_world::{Bytes, List};
use std::alloc::Global;

fn first_place(bytes: &[u8], mark: u8) -> Option<usize>
    ensures place { result ≡ position (λ byte. byte == mark) bytes.now }
    ensures within { IfSome result (λ at. at < length bytes.now) }
{
    bytes.iter().position(|byte| *byte == mark)
}

/// What is in front of the first such byte, and what is behind it.
pub(crate) fn cut(bytes: &[u8], mark: u8) -> Option<(&[u8], &[u8])>
    ensures { MatchOption result (cut mark bytes.now ≡ None)
        (λ halves. cut mark bytes.now ≡ Some (halves.0.now, halves.1.now)) }
{
    let at = first_place(bytes, mark)?;
    Some((&bytes[..at], &bytes[at + 1..]))
}

fn are_digits(text: &[u8]) -> bool
    ensures { result ≡ list_all is_ascii_digit text.now }
{
    text.iter().all(|byte| byte.is_ascii_digit())
}

fn has_leading_zero(text: &[u8]) -> bool
    ensures { result ≡ has_leading_zero text.now }
{
    text.len() > 1 && text[0] == b'0'
}

fn is_decimal(text: &[u8]) -> bool
    ensures { result ≡ is_decimal text.now }
{
    !text.is_empty() && are_digits(text) && !has_leading_zero(text)
}

// The number that decimal digits write, if it has 32 bits.

fn written_number(text: &[u8]) -> Option<u32>
    requires { is_decimal text.now ≡ true }
    ensures { result ≡ up_to 4294967295 (digits_value 10 text.now) }
{
    match str::from_utf8(text) {
        Ok(text) => text.parse::<u32>().ok(),
        Err(_) => None,
    }
}

// The number that a text is, up to the most.
#[tactic(auto, unfolding(crate::specs::Forms::number_to))]
fn number_to(most: u32, text: &[u8]) -> Option<u32>
    ensures { result ≡ number_to most text.now }
{
    if !is_decimal(text) {
        return None;
    }
    match written_number(text) {
        Some(number) if number <= most => Some(number),
        _ => None,
    }
}

/// The number of 32 bits that a text is.
pub(crate) fn number_in(text: &[u8]) -> Option<u32>
    ensures { result ≡ number_in text.now }
{
    number_to(u32::MAX, text)
}

#[tactic(auto, using(std::proofs::lemmas::Int::ints))]
fn negative(number: u32) -> i32
    requires { number ≤ 2147483648 }
    ensures { result ≡ neg_ℤ (pos number) }
{
    -i64::from(number) as i32
}

#[tactic(auto, unfolding(crate::specs::Forms::signed_in, crate::specs::Forms::number_to))]
fn signed_in(text: &[u8]) -> Option<i32>
    ensures { result ≡ signed_in text.now }
{
    match text {
        [b'-', rest @ ..] => match number_to(2_147_483_648, rest) {
            Some(number) => Some(negative(number)),
            None => None,
        },
        _ => match number_to(2_147_483_647, text) {
            Some(number) => Some(number as i32),
            None => None,
        },
    }
}

#[tactic(auto, unfolding(crate::specs::Forms::code_in))]
/// How a child ended, as a text tells it.
pub(crate) fn code_in(text: &[u8]) -> Option<Option<i32>>
    ensures { result ≡ code_in text.now }
{
    if text == b"none".as_slice() {
        return Some(None);
    }
    match signed_in(text) {
        Some(code) => Some(Some(code)),
        None => None,
    }
}

fn are_lower_digits(text: &[u8]) -> bool
    ensures { result ≡ list_all is_lower_digit text.now }
{
    text.iter()
        .all(|b| (48 <= *b && *b <= 57) || (97 <= *b && *b <= 102))
}

#[tactic(auto, unfolding(crate::specs::Forms::plan_in))]
/// The bytes of the plan that a text is.
pub(crate) fn plan_in(alloc: Global, text: &[u8]) -> Result<Bytes, LineFault>
    ensures { IsReadAs result (plan_in text.now) }
{
    if text == b"-".as_slice() {
        return Ok(Bytes::from_vec(Vec::new(alloc)));
    }
    if text.is_empty() || !are_lower_digits(text) {
        return Err(LineFault::Bad);
    }
    match hex::decode(alloc, text) {
        Ok(bytes) => Ok(Bytes::from_vec(bytes)),
        Err(hex::FromHexError::OutOfMemory) => Err(LineFault::Memory),
        Err(_) => Err(LineFault::Bad),
    }
}

fn side_in(text: &[u8]) -> Option<Side>
    ensures { result ≡ side_in text.now }
{
    if text == b"r".as_slice() {
        return Some(Side::Required);
    }
    if text == b"v".as_slice() {
        return Some(Side::Provided);
    }
    None
}

#[tactic(auto, unfolding(crate::specs::Forms::step_in))]
/// The step that a text is.
pub(crate) fn step_in(text: &[u8]) -> Option<Step>
    ensures { result ≡ step_in text.now }
{
    let (place, rest) = cut(text, b':')?;
    let (side, name) = cut(rest, b':')?;
    let place = number_in(place)?;
    let side = side_in(side)?;
    let name = number_in(name)?;
    Some(Step { place, side, name })
}

#[tactic(auto, unfolding(crate::specs::Forms::steps_in))]
/// The steps that a text is.
pub(crate) fn steps_in(alloc: Global, text: &[u8]) -> Result<List<Step>, LineFault>
    ensures { IsReadAs result (steps_in text.now) }
{
    let mut steps = List::new(alloc);
    let mut left = text;
    while let Some((text, rest)) = cut(left, b' ') {
        let Some(step) = step_in(text) else {
            return Err(LineFault::Bad);
        };
        steps.push(step)?;
        left = rest;
    }
    let Some(step) = step_in(left) else {
        return Err(LineFault::Bad);
    };
    steps.push(step)?;
    Ok(steps)
}

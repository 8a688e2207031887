// Reading the items of a pattern.
ghost use Rattle.std.specs.Prelude.{◌≡◌, ◌≢◌, ◌∷◌, ◌<◌, ◌≤◌, [], ℕ, List, length, chars};
ghost use Rattle.std.specs.Prelude.{MatchOption, IfOk, IfSome, IsErrOf};
ghost use Rattle.app_slices.specs.Spelling.{class_char_in, range_in, range_from, AreRanges, is_negated, body_of};
ghost use Rattle.app_slices.specs.Spelling.{IsClass, IsNoClass, IsItem, IsNoItem};
ghost use Rattle.app_slices.specs.declared.item.Item.{Item};

use crate::fault::PatternFault;
use crate::first::first;
use crate::item::{Item, Range};
use cnb_world::List;
use std::alloc::Global;

/// A character of a class, and what is behind it.
fn class_char(text: &str) -> Option<(char, &str)>
    ensures { MatchOption result (class_char_in (chars text.now) ≡ None)
        (λ p. (class_char_in (chars text.now) ≡ Some (p.0, chars p.1.now)) × (length p.1.now < length text.now)) }
{
    let (c, rest) = first(text)?;
    match c {
        '\\' => first(rest),
        '-' | ']' => None,
        _ => Some((c, rest)),
    }
}

/// The rest of a range behind its first character.
fn range_from(from: char, text: &str) -> Option<(Range, &str)>
    ensures { MatchOption result (range_from from (chars text.now) ≡ None)
        (λ p. (range_from from (chars text.now) ≡ Some (p.0, chars p.1.now)) × (length p.1.now ≤ length text.now)) }
{
    match first(text) {
        Some(('-', behind)) => {
            let (last, rest) = class_char(behind)?;
            Some((Range { first: from, last }, rest))
        }
        _ => Some((
            Range {
                first: from,
                last: from,
            },
            text,
        )),
    }
}

/// A range, and what is behind it.
fn range(text: &str) -> Option<(Range, &str)>
    ensures { MatchOption result (range_in (chars text.now) ≡ None)
        (λ p. (range_in (chars text.now) ≡ Some (p.0, chars p.1.now)) × (length p.1.now < length text.now)) }
{
    let (from, behind) = class_char(text)?;
    range_from(from, behind)
}

/// What is behind the `]` that a text begins with.
fn behind_close(text: &str) -> Option<&str>
    ensures { MatchOption result ((end : List ℕ) → chars text.now ≡ 93 ∷ end → ⊥)
        (λ behind. (chars text.now ≡ 93 ∷ chars behind.now) × (length behind.now < length text.now)) }
{
    match first(text) {
        Some((']', behind)) => Some(behind),
        _ => None,
    }
}

/// The ranges of a class up to its `]`, and what is behind it.
#[tactic(auto, using(crate::proofs::Readings::reading_ranges))]
fn ranges(alloc: Global, text: &str) -> Result<(List<Range>, &str), PatternFault>
    ensures ok { IfOk result (λ p. AreRanges p.0 (chars text.now) (chars p.1.now)) }
    ensures shorter { IfOk result (λ p. length p.1.now < length text.now) }
    ensures bad { IsErrOf result PatternFault.Bad → IsNoClass (chars text.now) }
{
    let mut all = List::new(alloc);
    let mut rest = text;
    loop {
        if let Some(behind) = behind_close(rest) {
            return Ok((all, behind));
        }
        match range(rest) {
            Some((found, behind)) => {
                all.push(found)?;
                rest = behind;
            }
            None => return Err(PatternFault::Bad),
        }
    }
}

/// Whether a `^` comes first, and what is behind it.
fn opened(text: &str) -> (bool, &str)
    ensures negated { result.0 ≡ is_negated (chars text.now) }
    ensures body { chars result.1.now ≡ body_of (chars text.now) }
    ensures shorter { length result.1.now ≤ length text.now }
{
    match first(text) {
        Some(('^', body)) => (true, body),
        _ => (false, text),
    }
}

/// A class behind its `[`.
#[tactic(auto, using(crate::proofs::Readings::reading_a_class))]
fn class(alloc: Global, text: &str) -> Result<(Item, &str), PatternFault>
    ensures ok { IfOk result (λ p. IsClass p.0 (chars text.now) (chars p.1.now)) }
    ensures shorter { IfOk result (λ p. length p.1.now < length text.now) }
    ensures bad { IsErrOf result PatternFault.Bad
        → (item : Item) (rest : List ℕ) → IsClass item (chars text.now) rest → ⊥ }
{
    let (negated, body) = opened(text);
    match ranges(alloc, body) {
        Ok((all, rest)) => {
            if all.as_slice().is_empty() {
                return Err(PatternFault::Bad);
            }
            Ok((
                Item::Class {
                    negated,
                    ranges: all,
                },
                rest,
            ))
        }
        Err(fault) => Err(fault),
    }
}

/// The character behind a `\`.
#[tactic(auto, using(crate::proofs::Readings::not_nil))]
fn escaped(text: &str) -> Result<(Item, &str), PatternFault>
    ensures ok { IfOk result (λ p. (only : ℕ) × (chars text.now ≡ only ∷ chars p.1.now) × (p.0 ≡ Item.Just only)) }
    ensures shorter { IfOk result (λ p. length p.1.now < length text.now) }
    ensures bad { IsErrOf result PatternFault.Bad → chars text.now ≡ [] }
{
    match first(text) {
        Some((only, rest)) => Ok((Item::Just(only), rest)),
        None => Err(PatternFault::Bad),
    }
}

/// The item that begins with this character, and what is behind it.
#[tactic(auto, using(crate::proofs::Readings::reading_an_item))]
fn item_from(alloc: Global, c: char, behind: &str) -> Result<(Item, &str), PatternFault>
    ensures ok { IfOk result (λ p. IsItem p.0 (c ∷ chars behind.now) (chars p.1.now)) }
    ensures shorter { IfOk result (λ p. length p.1.now ≤ length behind.now) }
    ensures bad { IsErrOf result PatternFault.Bad → IsNoItem (c ∷ chars behind.now) }
{
    match c {
        '*' => Ok((Item::Star, behind)),
        '?' => Ok((Item::One, behind)),
        '[' => class(alloc, behind),
        '\\' => escaped(behind),
        _ => Ok((Item::Just(c), behind)),
    }
}

/// The first item of a text and what is behind it; none where the text is empty.
#[tactic(auto, using(crate::proofs::Readings::not_nil))]
pub(crate) fn read_item(alloc: Global, text: &str) -> Result<Option<(Item, &str)>, PatternFault>
    ensures ok { IfOk result (λ o. MatchOption o (chars text.now ≡ [])
        (λ p. IsItem p.0 (chars text.now) (chars p.1.now))) }
    ensures shorter { IfOk result (λ o. IfSome o (λ p. length p.1.now < length text.now)) }
    ensures bad { IsErrOf result PatternFault.Bad → IsNoItem (chars text.now) × (chars text.now ≢ []) }
{
    let Some((c, behind)) = first(text) else {
        return Ok(None);
    };
    match item_from(alloc, c, behind) {
        Ok((item, rest)) => Ok(Some((item, rest))),
        Err(fault) => Err(fault),
    }
}

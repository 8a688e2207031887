// Matching a path without memory, in at most as many steps as the path has characters for each item.
ghost use Rattle.std.specs.Prelude.{◌≡◌, ◌<◌, ◌≤◌, ◌++◌, ◌∷◌, [], true};
ghost use Rattle.std.specs.Prelude.{length, take, drop, chars, slice_get, MatchOption};
ghost use Rattle.app_slices.specs.Matching.{is_run, behind_run, behind_first, is_end, ends_with, somewhere, matched};
ghost use Rattle.app_slices.specs.declared.item.Item.TheVariants.{Star};

use crate::first::first;
use crate::item::{Item, takes};

/// The place of the first star, or the number of items.
fn first_star(items: &[Item]) -> usize
    ensures within { result ≤ length items.now }
    ensures before { is_run (take result items.now) ≡ true }
    ensures star { result < length items.now → slice_get items.now result ≡ Some Star }
{
    for (place, item) in items.iter().enumerate() {
        if matches!(item, Item::Star) {
            return place;
        }
    }
    items.len()
}

/// What is left of a text behind these items, one character for each.
fn behind_run<'a>(run: &[Item], text: &'a str) -> Option<&'a str>
    ensures { MatchOption result (behind_run run.now (chars text.now) ≡ None)
        (λ rest. behind_run run.now (chars text.now) ≡ Some (chars rest.now)) }
{
    let mut rest = text;
    for item in run {
        match first(rest) {
            Some((c, behind)) if takes(item, c) => rest = behind,
            _ => return None,
        }
    }
    Some(rest)
}

/// What is left behind these items at the first place before the next slash where they stand.
#[tactic(auto, using(crate::proofs::Runs::first_place))]
fn behind_first<'a>(run: &[Item], text: &'a str) -> Option<&'a str>
    ensures { MatchOption result (behind_first run.now (chars text.now) ≡ None)
        (λ rest. behind_first run.now (chars text.now) ≡ Some (chars rest.now)) }
{
    let mut from = text;
    loop {
        if let Some(rest) = behind_run(run, from) {
            return Some(rest);
        }
        match first(from) {
            Some((c, behind)) if c != '/' => from = behind,
            _ => return None,
        }
    }
}

/// Whether these items match the whole text.
fn is_whole(run: &[Item], text: &str) -> bool
    ensures { result ≡ is_end (behind_run run.now (chars text.now)) }
{
    match behind_run(run, text) {
        Some(rest) => first(rest).is_none(),
        None => false,
    }
}

/// Whether these items stand at the end, with no slash before them.
#[tactic(auto, using(crate::proofs::Runs::at_the_end))]
fn ends_with(run: &[Item], text: &str) -> bool
    ensures { result ≡ ends_with run.now (chars text.now) }
{
    let mut from = text;
    loop {
        if is_whole(run, from) {
            return true;
        }
        match first(from) {
            Some((c, behind)) if c != '/' => from = behind,
            _ => return false,
        }
    }
}

/// What is behind the first item.
fn behind_one(items: &[Item]) -> Option<&[Item]>
    ensures { MatchOption result (items.now ≡ [])
        (λ more. (0 < length items.now) × (more.now ≡ drop 1 items.now)) }
{
    match items {
        [_, more @ ..] => Some(more),
        [] => None,
    }
}

/// The items before the first star, and those behind it; none where there is no star.
#[tactic(auto, using(crate::proofs::Runs::next_star))]
fn cut_at_star<'a>(items: &'a [Item]) -> Option<(&'a [Item], &'a [Item])>
    ensures { MatchOption result (is_run items.now ≡ true)
        (λ p. (items.now ≡ p.0.now ++ Star ∷ p.1.now) × (is_run p.0.now ≡ true) × (length p.1.now < length items.now)) }
{
    let star = first_star(items);
    let (front, back) = items.split_at(star);
    match behind_one(back) {
        Some(more) => Some((front, more)),
        None => None,
    }
}

/// Whether items match from some place before the next slash on. The items before the next star are looked for once, at
/// the first place where they stand, since a later one leaves less.
#[tactic(auto, using(crate::proofs::Runs::behind_a_star))]
fn matches_later(items: &[Item], text: &str) -> bool
    ensures { result ≡ somewhere (matched items.now) (chars text.now) }
{
    let mut items = items;
    let mut rest = text;
    loop {
        let Some((run, more)) = cut_at_star(items) else {
            return ends_with(items, rest);
        };
        match behind_first(run, rest) {
            Some(behind) => {
                rest = behind;
                items = more;
            }
            None => return false,
        }
    }
}

/// Whether items match a text.
#[tactic(auto, using(crate::proofs::Runs::at_the_beginning))]
pub(crate) fn is_match(items: &[Item], text: &str) -> bool
    ensures { result ≡ matched items.now (chars text.now) }
{
    let Some((run, more)) = cut_at_star(items) else {
        return is_whole(items, text);
    };
    match behind_run(run, text) {
        Some(behind) => matches_later(more, behind),
        None => false,
    }
}

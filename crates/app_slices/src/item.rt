// What a pattern is made of.
ghost use Rattle.std.specs.Prelude.{◌≡◌};
ghost use Rattle.std.specs.List.{list_any};
ghost use Rattle.app_slices.specs.Items.{holds, in_class, takes};

use cnb_world::List;

/// The characters from one to another, both included. Where the last is below the first there are none.
#[derive(Clone, Copy)]
pub struct Range {
    pub first: char,
    pub last: char,
}

/// An item of a pattern.
#[derive(Drop)]
pub enum Item {
    /// `*`: any number of characters other than `/`.
    Star,
    /// `?`: one character other than `/`.
    One,
    /// `[..]`: one character other than `/` that some range holds, or, where it is negated by `^`, that none holds.
    Class { negated: bool, ranges: List<Range> },
    /// Any other character, and the one behind `\`: this character.
    Just(char),
}

impl Range {
    fn holds(&self, c: char) -> bool
        ensures { result ≡ holds c self.now }
    {
        self.first <= c && c <= self.last
    }
}

fn is_held(ranges: &[Range], c: char) -> bool
    ensures { result ≡ list_any (holds c) ranges.now }
{
    ranges.iter().any(|range| range.holds(c))
}

fn in_class(negated: bool, ranges: &[Range], c: char) -> bool
    ensures { result ≡ in_class negated ranges.now c }
{
    if c == '/' {
        return false;
    }
    let held = is_held(ranges, c);
    if negated { !held } else { held }
}

/// Whether an item takes this character; `*` takes any number of such.
pub(crate) fn takes(item: &Item, c: char) -> bool
    ensures { result ≡ takes item.now c }
{
    match item {
        Item::Star | Item::One => c != '/',
        Item::Class { negated, ranges } => in_class(*negated, ranges.as_slice(), c),
        Item::Just(only) => c == *only,
    }
}

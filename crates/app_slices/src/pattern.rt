// Patterns.
ghost use Rattle.std.specs.Prelude.{◌≡◌, ◌↔◌, List as Seq, IsTrue, IfOk, IsErrOf, chars};
ghost use Rattle.app_slices.specs.Items.{Matches};
ghost use Rattle.app_slices.specs.Matching.{matched};
ghost use Rattle.app_slices.specs.Spelling.{Spells, IsNoPattern};
ghost use Rattle.app_slices.specs.declared.item.Item.{Item};

use crate::fault::PatternFault;
use crate::item::Item;
use crate::matching::is_match;
use crate::reading::read_item;
use cnb_world::List;
use std::alloc::Global;
use std::marker::Model;

/// A pattern of paths, which contracts see as its items.
///
/// A path is names from the application's folder on, joined by `/`, with none in front, as `static/a.js`. A pattern
/// matches the whole of a path. Its text is one item after another:
///
/// | Text | Matches |
/// |---|---|
/// | `*` | any number of characters other than `/`, also none |
/// | `?` | one character other than `/` |
/// | `[a-c_]` | one character other than `/` that is listed or lies in a range |
/// | `[^a-c_]` | one character other than `/` that does neither |
/// | `\*` | the character behind `\` |
/// | any other | itself; outside a class `]`, `-` and `^` too |
///
/// A class has at least one character or range. In it `-`, `]` and `\` need a `\` before them, and so does `^` as the
/// first character. `*`, `?`, `[` and `/` mean themselves there, though no class matches `/`. `[z-a]` matches nothing.
///
/// `static/*.js` matches `static/a.js` and not `static/b/a.js`. `**` is the same as `*`. Paths are compared as they
/// are, so `./static`, `/static` and `static/` match nothing: no path has a part `.`, and none begins or ends with a
/// slash.
#[derive(Drop)]
pub struct Pattern {
    items: List<Item>,
}

impl Model for Pattern {
    ghost use Rattle.std.specs.Prelude.{List};
    ghost use Rattle.std.specs.Coded.{coded_list};
    ghost use Rattle.app_slices.specs.declared.item.Item.{Item};
    ghost use Rattle.app_slices.specs.contracts.item.Item as facts;

    ghost Value = { List Item };

    ghost coded = { coded_list facts.the_row.coded };

    ghost view = { λ p. p.items };
}

impl Pattern {
    /// Reads a pattern. `Bad` is a class that has no end or nothing in it, or a `\` at the end. The empty text is a
    /// pattern that matches the empty path alone, which nothing in an application has.
    #[tactic(auto, using(crate::proofs::Readings::reading_a_pattern))]
    pub fn parse(alloc: Global, text: &str) -> Result<Pattern, PatternFault>
        ensures ok { IfOk result (λ p. Spells p (chars text.now)) }
        ensures only { IfOk result (λ p. (other : Seq Item) → Spells other (chars text.now) → other ≡ p) }
        ensures bad { IsErrOf result PatternFault.Bad → IsNoPattern (chars text.now) }
    {
        let mut items = List::new(alloc);
        let mut rest = text;
        loop {
            match read_item(alloc, rest) {
                Ok(Some((item, behind))) => {
                    items.push(item)?;
                    rest = behind;
                }
                Ok(None) => return Ok(Pattern { items }),
                Err(fault) => return Err(fault),
            }
        }
    }

    /// Whether the pattern matches a path. It takes no memory, and at most as many steps as the path has characters for
    /// each item.
    #[tactic(auto, using(crate::proofs::Runs::matched_is, crate::proofs::Runs::is_matched))]
    pub fn matches(&self, path: &str) -> bool
        ensures { IsTrue result ↔ Matches self.now (chars path.now) }
    {
        self.is_match(path)
    }

    /// The same, as the test that says it.
    pub(crate) fn is_match(&self, path: &str) -> bool
        ensures { result ≡ matched self.now (chars path.now) }
    {
        is_match(self.items.as_slice(), path)
    }
}

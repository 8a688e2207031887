// The options behind a command.

use clap::ArgMatches;
use cnb_world::Text;
use std::marker::Model;

/// An option as it was given: its name with its dashes, and its value. Contracts speak of options as lists of these.
#[derive(Drop)]
pub(crate) struct Given {
    pub(crate) name: Text,
    pub(crate) value: Text,
}

/// The options that words give, as `clap` read them. Contracts see what the words say.
#[derive(Drop)]
pub(crate) struct Options<'a> {
    pub(crate) words: &'a [String],
    pub(crate) matches: ArgMatches<'a>,
}

impl<'a> Model for Options<'a> {
    ghost use Rattle.std.specs.Prelude.{List, map, string_bytes};
    ghost use Rattle.cnb_words.specs.Reading.{given_by, Finds};
    ghost use Rattle.cnb_words.specs.declared.options.Given.{Given};

    ghost Value = { List Given };

    ghost view = { λ options. given_by (map string_bytes options.words.now) };

    ghost invariant = { λ options. Finds options.matches (given_by (map string_bytes options.words.now)) };
}

impl<'a> Options<'a> {
    ghost use Rattle.std.specs.Prelude.{◌≡◌, [], map, option_map, unwrap_or};
    ghost use Rattle.std.specs.Option.{option_copied};
    ghost use Rattle.cnb_words.specs.Options.{value_of};
    ghost use Rattle.cnb_words.specs.Reading.{dashed, texts_of};

    /// The value of an option, where it is given.
    pub(crate) fn value_of(&self, name: &str) -> Option<&'a str>
        ensures { option_copied result ≡ value_of (dashed name.now) self.now }
    {
        self.matches.get_str(name)
    }

    /// The values of an option that may stand several times, in the order of the words.
    pub(crate) fn values_of(&self, name: &str) -> Option<&[&'a str]>
        ensures { unwrap_or (option_map (λ values. map (λ value. value.now) values.now) result) []
            ≡ texts_of (dashed name.now) self.now }
    {
        self.matches.get_strs(name)
    }
}

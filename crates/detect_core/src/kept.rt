// The answers of a call so far.
ghost use Rattle.std.specs.Prelude.{◌≡◌, ◌<◌, ◌^◌, ◌++◌, ◌∷◌, [], false, length, position, IfOk, IfSome, OnOk, OnErr};
ghost use Rattle.std.specs.Option.{option_copied};
ghost use Rattle.cnb_toml.specs.Keys.{same_key};
ghost use Rattle.detect_core.specs.Answer.{is_error};

use crate::chosen::Verdict;
use bp_docs::PlanOption;
use cnb_toml::Key;
use cnb_world::{List, Memory};
use indexmap::IndexMap;
use std::alloc::Global;
use std::marker::Model;

/// What the children of buildpacks said, in the order in which the buildpacks were asked.
#[derive(Drop)]
pub struct Kept {
    answers: IndexMap<Key, Verdict>,
}

impl Model for Kept {
    ghost use Rattle.std.specs.Prelude.{List};
    ghost use Rattle.cnb_toml.specs.declared.names.Key.{Key};
    ghost use Rattle.std.specs.Coded.{codes};
    ghost use Rattle.detect_core.specs.declared.chosen.Verdict.{Verdict};
    ghost use Rattle.detect_core.specs.contracts.chosen.Verdict as verdict;

    ghost Value = { List (Key × Verdict) };

    ghost coded = { Prim.hlevel (codes, verdict.the_row.coded) };

    ghost view = { λ kept. kept.answers.entries };
}

impl Kept {
    ghost use Rattle.detect_core.specs.Kept.{kept_for, verdict_for, options_of, keys_of, has_key};

    pub fn new(alloc: Global) -> Kept
        ensures { result ≡ [] }
    {
        Kept {
            answers: IndexMap::new(alloc),
        }
    }

    /// Whether a buildpack was asked.
    pub fn has(&self, key: &Key) -> bool
        ensures { result ≡ has_key self.now key.now }
    {
        self.answers.contains_key(key)
    }

    // What the child of a buildpack said, where it was asked.
    fn verdict(&self, key: &Key) -> Option<&Verdict>
        ensures { option_copied result ≡ kept_for self.now key.now }
    {
        self.answers.get(key)
    }

    /// The alternatives of a buildpack that passed.
    pub fn options(&self, key: &Key) -> Option<&List<PlanOption>>
        ensures { option_copied result ≡ options_of (verdict_for self.now key.now) }
    {
        match self.verdict(key) {
            Some(Verdict::Pass(options)) => Some(options),
            _ => None,
        }
    }

    /// Whether a buildpack ended with an error. One that was not asked counts as such.
    pub fn has_erred(&self, key: &Key) -> bool
        ensures { result ≡ is_error (verdict_for self.now key.now) }
    {
        match self.verdict(key) {
            Some(Verdict::Error) | None => true,
            Some(_) => false,
        }
    }

    /// Adds the answer of a buildpack that was not asked before, at the end.
    pub fn add(&mut self, key: Key, verdict: Verdict) -> Result<(), Memory>
        requires { has_key self.old key ≡ false }
        ensures ok { OnOk result (self.new ≡ self.old ++ (key, verdict) ∷ []) }
        ensures err { OnErr result (self.new ≡ self.old) }
    {
        self.answers.insert(key, verdict)?;
        Ok(())
    }

    /// The place of a buildpack among those that were asked.
    pub fn place(&self, key: &Key) -> Option<usize>
        ensures place { result ≡ position (same_key key.now) (keys_of self.now) }
        ensures small { IfSome result (λ place. place < 2 ^ 63) }
    {
        let _all = self.answers.len();
        self.answers.get_index_of(key)
    }

    /// How many buildpacks were asked.
    pub fn len(&self) -> usize
        ensures { result ≡ length self.now }
    {
        self.answers.len()
    }

    /// The buildpacks that were asked, in order.
    pub fn keys(&self, alloc: Global) -> Result<List<Key>, Memory>
        ensures { IfOk result (λ keys. keys ≡ keys_of self.now) }
    {
        let mut keys = List::new(alloc);
        for key in self.answers.keys() {
            keys.push(key.copy(alloc)?)?;
        }
        Ok(keys)
    }
}

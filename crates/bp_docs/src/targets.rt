// Which images a component is for.
ghost use Rattle.std.specs.Prelude.{◌≡◌, ◌==◌, ◌||◌, IfOk, length};
ghost use Rattle.std.specs.List.{list_any};
ghost use Rattle.std.specs.Option.{option_copied};
ghost use Rattle.toml.specs.View.{table_view};
ghost use Rattle.cnb_toml.specs.Reading.{Answers};
ghost use Rattle.bp_docs.specs.Targets.{text_or_none, optional_text_of, rule_in, targets_at, is_wanted, rule_fits};
ghost use Rattle.bp_docs.specs.Targets.{fits};

use crate::descriptor::TargetRule;
use cnb_toml::{DocFault, Form, TableForm, TableOf, Target, list_at, value_or};
use cnb_world::{List, Memory, Text};
use std::alloc::Global;
use std::marker::Model;
use std::sync::Arc;
use toml::{Table, Value};

fn text_or_none(alloc: Global, text: &str) -> Result<Option<Text>, DocFault>
    ensures { Answers result (text_or_none text.now) }
{
    if text.is_empty() {
        return Ok(None);
    }
    let text = Text::of(alloc, text)?;
    Ok(Some(text))
}

/// A text, where an empty one is none.
struct OptionalText;

impl Form for OptionalText {
    type Value = Option<Text>;

    ghost value_of = { optional_text_of };

    fn read(alloc: Global, value: &Value) -> Result<Option<Text>, DocFault> {
        match value.as_str() {
            Some(text) => text_or_none(alloc, text),
            None => Err(DocFault::wrong(alloc)),
        }
    }
}

impl TableForm for TargetRule {
    type Value = TargetRule;

    ghost value_in = { rule_in };

    fn read(alloc: Global, table: &Table) -> Result<TargetRule, DocFault> {
        let os = value_or::<OptionalText>(alloc, table, "os", None)?;
        let arch = value_or::<OptionalText>(alloc, table, "arch", None)?;
        Ok(TargetRule { os, arch })
    }
}

/// The targets of a component. All members of groups that are the same component share them.
#[derive(Drop)]
pub struct Targets {
    rules: Arc<List<TargetRule>, Global>,
}

impl Model for Targets {
    ghost use Rattle.std.specs.Prelude.{List};
    ghost use Rattle.std.specs.Arc.{arc_value};
    ghost use Rattle.bp_docs.specs.declared.descriptor.TargetRule.{TargetRule};

    ghost Value = { List TargetRule };

    ghost view = { λ targets. arc_value targets.rules };
}

impl Targets {
    pub fn new(alloc: Global, rules: List<TargetRule>) -> Result<Targets, Memory>
        ensures { IfOk result (λ targets. targets ≡ rules) }
    {
        match Arc::new(alloc, rules) {
            Ok(rules) => Ok(Targets { rules }),
            Err(_) => Err(Memory),
        }
    }

    /// The same targets once more. It copies none of them.
    pub fn share(&self) -> Result<Targets, Memory>
        ensures { IfOk result (λ targets. targets ≡ self.now) }
    {
        match Arc::try_clone(&self.rules) {
            Ok(rules) => Ok(Targets { rules }),
            Err(_) => Err(Memory),
        }
    }

    pub fn as_slice(&self) -> &[TargetRule]
        ensures { result.now ≡ self.now }
    {
        self.rules.as_slice()
    }
}

/// The targets of a table.
pub(crate) fn targets_at(alloc: Global, table: &Table) -> Result<Targets, DocFault>
    ensures { Answers result (targets_at (table_view table.now)) }
{
    let rules = list_at::<TableOf<TargetRule>>(alloc, table, "targets")?;
    let targets = Targets::new(alloc, rules)?;
    Ok(targets)
}

// Whether a text is the one that is wanted, where one is.
fn is_wanted(wanted: &Option<Text>, text: &Text) -> bool
    ensures { result ≡ is_wanted wanted.now text.now }
{
    match wanted {
        Some(wanted) => wanted.as_str() == text.as_str(),
        None => true,
    }
}

fn rule_fits(rule: &TargetRule, target: &Target) -> bool
    ensures { result ≡ rule_fits rule.now target.now }
{
    is_wanted(&rule.os, &target.os) && is_wanted(&rule.arch, &target.arch)
}

fn some_fits(rules: &[TargetRule], target: &Target) -> bool
    ensures { result ≡ list_any (λ rule. rule_fits rule target.now) rules.now }
{
    rules.iter().any(|rule| rule_fits(rule, target))
}

fn fits_target(rules: &[TargetRule], target: &Target) -> bool
    ensures { result ≡ (length rules.now == 0 || list_any (λ rule. rule_fits rule target.now) rules.now) }
{
    rules.is_empty() || some_fits(rules, target)
}

/// Whether a component with these targets is for an image (buildpack.md, "buildpack.toml (TOML)", `targets`): it has no
/// targets, or one of them has its operating system and its architecture, byte by byte. Where no image is known, every
/// component is.
pub fn fits(targets: &Targets, target: Option<&Target>) -> bool
    ensures { result ≡ fits targets.now (option_copied target.entry) }
{
    match target {
        Some(target) => fits_target(targets.as_slice(), target),
        None => true,
    }
}

// What `prune` and `verify` print.
ghost use Rattle.std.specs.Prelude.{◌≡◌, ◌++◌, IfOk, OnOk, flat_map, string_bytes};
ghost use Rattle.store_prune.specs.Report.{kept_line, pruned_text, removed_line, verified_text};

use crate::surveying::Pruned;
use cnb_toml::ImageName;
use cnb_world::{Memory, Text};
use std::alloc::{AllocError, Global};
use tree_canon::Digest;

fn push_removed_line(alloc: Global, text: &mut String, digest: &Digest) -> Result<(), Memory>
    ensures { OnOk result (string_bytes text.new ≡ string_bytes text.old ++ removed_line digest.now) }
{
    let digits = digest.text(alloc)?;
    text.push_str("removed ")?;
    text.push_str(digits.as_str())?;
    text.push_str("\n")?;
    Ok(())
}

fn removed_lines(alloc: Global, digests: &[Digest]) -> Result<String, Memory>
    ensures { IfOk result (λ text. string_bytes text ≡ flat_map removed_line digests.now) }
{
    let mut text = String::new(alloc);
    for digest in digests {
        push_removed_line(alloc, &mut text, digest)?;
    }
    Ok(text)
}

fn kept_line(alloc: Global, kept: u64) -> Result<String, AllocError>
    ensures { IfOk result (λ text. string_bytes text ≡ kept_line kept) }
{
    format!(in alloc; "kept {kept}\n")
}

/// A line for each tree that is removed, and how many are left.
pub(crate) fn pruned_text(alloc: Global, pruned: &Pruned) -> Result<Text, Memory>
    ensures { IfOk result (λ text. text ≡ pruned_text pruned.now) }
{
    let mut text = removed_lines(alloc, pruned.removed.as_slice())?;
    let line = kept_line(alloc, pruned.kept)?;
    text.push_str(line.as_str())?;
    Ok(Text::from_string(text))
}

/// The image, and how many trees it has.
pub(crate) fn verified_text(alloc: Global, name: &ImageName, count: u64) -> Result<Text, Memory>
    ensures { IfOk result (λ text. text ≡ verified_text name.now count) }
{
    let name = name.as_str();
    let text = format!(in alloc; "verified {name} {count} trees\n")?;
    Ok(Text::from_string(text))
}

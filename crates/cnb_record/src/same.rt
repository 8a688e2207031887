// Whether two documents have one value.
ghost use Rattle.std.specs.Prelude.{◌≡◌, ◌↔◌, IsTrue};

use crate::metadata::same_meta;
use cnb_toml::{Key, Need};
use run_docs::{GroupDoc, GroupRow, PlanDoc, PlanEntry};

/// Whether two groups are the same: the same buildpacks with the same APIs, in the same order.
pub(crate) fn same_group(one: &GroupDoc, other: &GroupDoc) -> bool
    ensures { IsTrue result ↔ (one.now ≡ other.now) }
{
    same_rows(one.as_slice(), other.as_slice())
}

fn same_rows(one: &[GroupRow], other: &[GroupRow]) -> bool
    ensures { IsTrue result ↔ (one.now ≡ other.now) }
{
    if one.len() != other.len() {
        return false;
    }
    for (place, row) in one.iter().enumerate() {
        if !same_row(row, &other[place]) {
            return false;
        }
    }
    true
}

fn same_row(one: &GroupRow, other: &GroupRow) -> bool
    ensures { IsTrue result ↔ (one.now ≡ other.now) }
{
    same_key(&one.key, &other.key) && one.api.as_str() == other.api.as_str()
}

fn same_key(one: &Key, other: &Key) -> bool
    ensures { IsTrue result ↔ (one.now ≡ other.now) }
{
    one.id.as_str() == other.id.as_str() && one.version.as_str() == other.version.as_str()
}

/// Whether two plans are the same: the same entries with the same metadata, in the same order.
pub(crate) fn same_plan(one: &PlanDoc, other: &PlanDoc) -> bool
    ensures { IsTrue result ↔ (one.now ≡ other.now) }
{
    same_entries(one.as_slice(), other.as_slice())
}

fn same_entries(one: &[PlanEntry], other: &[PlanEntry]) -> bool
    ensures { IsTrue result ↔ (one.now ≡ other.now) }
{
    if one.len() != other.len() {
        return false;
    }
    for (place, entry) in one.iter().enumerate() {
        if !same_entry(entry, &other[place]) {
            return false;
        }
    }
    true
}

fn same_entry(one: &PlanEntry, other: &PlanEntry) -> bool
    ensures { IsTrue result ↔ (one.now ≡ other.now) }
{
    one.name.as_str() == other.name.as_str()
        && same_keys(one.providers.as_slice(), other.providers.as_slice())
        && same_needs(one.needs.as_slice(), other.needs.as_slice())
}

fn same_keys(one: &[Key], other: &[Key]) -> bool
    ensures { IsTrue result ↔ (one.now ≡ other.now) }
{
    if one.len() != other.len() {
        return false;
    }
    for (place, key) in one.iter().enumerate() {
        if !same_key(key, &other[place]) {
            return false;
        }
    }
    true
}

fn same_needs(one: &[Need], other: &[Need]) -> bool
    ensures { IsTrue result ↔ (one.now ≡ other.now) }
{
    if one.len() != other.len() {
        return false;
    }
    for (place, need) in one.iter().enumerate() {
        if !same_need(need, &other[place]) {
            return false;
        }
    }
    true
}

fn same_need(one: &Need, other: &Need) -> bool
    ensures { IsTrue result ↔ (one.now ≡ other.now) }
{
    one.name.as_str() == other.name.as_str() && same_meta(&one.meta, &other.meta)
}

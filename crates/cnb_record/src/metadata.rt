// Whether two values of kept metadata are the same.
ghost use Rattle.std.specs.Prelude.{◌≡◌, ◌↔◌, IsTrue};

use cnb_toml::{Meta, MetaEntry};

/// Whether two values of kept metadata are the same.
#[cycle(same)]
pub(crate) fn same_meta(one: &Meta, other: &Meta) -> bool
    ensures { IsTrue result ↔ (one.now ≡ other.now) }
{
    match (one, other) {
        (Meta::Bool(truth), Meta::Bool(with)) => truth == with,
        (Meta::Int(number), Meta::Int(with)) => number == with,
        (Meta::Text(text), Meta::Text(with)) => text.as_str() == with.as_str(),
        (Meta::List(list), Meta::List(with)) => same_list(list.as_slice(), with.as_slice()),
        (Meta::Table(entries), Meta::Table(with)) => {
            same_table(entries.as_slice(), with.as_slice())
        }
        _ => false,
    }
}

#[cycle(same)]
fn same_list(one: &[Meta], other: &[Meta]) -> bool
    ensures { IsTrue result ↔ (one.now ≡ other.now) }
{
    if one.len() != other.len() {
        return false;
    }
    for (place, meta) in one.iter().enumerate() {
        if !same_meta(meta, &other[place]) {
            return false;
        }
    }
    true
}

#[cycle(same)]
fn same_table(one: &[MetaEntry], other: &[MetaEntry]) -> bool
    ensures { IsTrue result ↔ (one.now ≡ other.now) }
{
    if one.len() != other.len() {
        return false;
    }
    for (place, entry) in one.iter().enumerate() {
        if !same_entry(entry, &other[place]) {
            return false;
        }
    }
    true
}

#[cycle(same)]
fn same_entry(one: &MetaEntry, other: &MetaEntry) -> bool
    ensures { IsTrue result ↔ (one.now ≡ other.now) }
{
    one.key.as_str() == other.key.as_str() && same_meta(&one.value, &other.value)
}

// The rows of a buildpack's layers.
ghost use Rattle.std.specs.Prelude.{◌≡◌, ◌++◌, IfOk, OnOk, map};
ghost use Rattle.std.specs.Option.{option_copied};
ghost use Rattle.cnb_restore.specs.Images.{kept_for};
ghost use Rattle.cnb_restore.specs.RestoresFrom.{HavePartNames};
ghost use Rattle.cnb_restore.specs.Rows.{are_same, flags_of, layer_names, restored_part, row_of, rows_of, source_of};

use cnb_toml::{BpId, ascending};
use cnb_world::Memory;
use image_docs::{LayerRow, StoreRow};
use layer_flags::{Flags, RestoreRow, restore_row};
use std::alloc::Global;

/// What the previous image keeps for a buildpack.
pub(crate) fn kept_for<'a>(id: &BpId, rows: &'a [StoreRow]) -> Option<&'a StoreRow>
    ensures { option_copied result ≡ kept_for id.now rows.now }
{
    rows.iter().find(|row| row.id == *id)
}

/// The rows of a buildpack.
pub(crate) fn rows_of<'a>(
    alloc: Global,
    id: &BpId,
    rows: &'a [LayerRow],
) -> Result<Vec<&'a LayerRow>, Memory>
    ensures { IfOk result (λ found. map (λ row. row.now) found.items ≡ rows_of id.now rows.now) }
{
    let mut found = Vec::new(alloc);
    for row in rows {
        if row.id == *id {
            found.push(row)?;
        }
    }
    Ok(found)
}

/// The row of a layer among those of its buildpack.
pub(crate) fn row_of<'a>(name: &str, rows: &[&'a LayerRow]) -> Option<&'a LayerRow>
    ensures { option_copied result ≡ row_of name.now (map (λ row. row.now) rows.now) }
{
    for row in rows {
        if row.layer.as_str() == name {
            return Some(row);
        }
    }
    None
}

fn add_names<'a>(names: &mut Vec<&'a str>, rows: &[&'a LayerRow]) -> Result<(), Memory>
    ensures { OnOk result (map (λ name. name.now) names.new.items
        ≡ map (λ name. name.now) names.old.items ++ map (λ row. row.layer) (map (λ row. row.now) rows.now)) }
{
    for row in rows {
        names.push(row.layer.as_str())?;
    }
    Ok(())
}

/// The names of the layers that the image or the caches have, ascending.
pub(crate) fn layer_names<'a>(
    alloc: Global,
    app: &[&'a LayerRow],
    cache: &[&'a LayerRow],
) -> Result<Vec<&'a str>, Memory>
    ensures { IfOk result (λ names. map (λ name. name.now) names.items
        ≡ layer_names (map (λ row. row.now) app.now) (map (λ row. row.now) cache.now)) }
{
    let mut names = Vec::new(alloc);
    add_names(&mut names, app)?;
    add_names(&mut names, cache)?;
    ascending(alloc, names)
}

fn flags_of(row: Option<&LayerRow>) -> Option<Flags>
    ensures { result ≡ flags_of (option_copied row.entry) }
{
    match row {
        Some(row) => Some(row.flags),
        None => None,
    }
}

fn are_same(app: Option<&LayerRow>, cache: Option<&LayerRow>) -> bool
    ensures { result ≡ are_same (option_copied app.entry) (option_copied cache.entry) }
{
    match app {
        Some(app) => match cache {
            Some(cache) => app.digest.same(&cache.digest),
            None => false,
        },
        None => false,
    }
}

/// What is restored of a layer.
pub(crate) fn restored_part(app: Option<&LayerRow>, cache: Option<&LayerRow>) -> RestoreRow
    ensures { result ≡ restored_part (option_copied app.entry) (option_copied cache.entry) }
{
    restore_row(flags_of(app), flags_of(cache), are_same(app, cache))
}

/// The row whose metadata and tree it is.
pub(crate) fn source_of<'a>(
    app: Option<&'a LayerRow>,
    cache: Option<&'a LayerRow>,
) -> Option<&'a LayerRow>
    ensures { option_copied result ≡ source_of (option_copied app.entry) (option_copied cache.entry) }
{
    match app {
        Some(row) if row.flags.launch => app,
        Some(_) => cache,
        None => cache,
    }
}

/// Looks at the name of each layer, to see that it is a part of a path.
pub(crate) fn see_names(rows: &[LayerRow])
    ensures { HavePartNames rows.now }
{
    for row in rows {
        let _name = row.layer.as_str();
    }
}

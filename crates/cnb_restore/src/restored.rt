// What was restored.
ghost use Rattle.std.specs.Prelude.{◌≡◌, ◌+◌, ◌<◌, ◌^◌, IfOk, length};
ghost use Rattle.cnb_restore.specs.Restored.{after_search, gathered_first, restored_row, with_layer};

use cnb_toml::{BpId, LayerName};
use cnb_world::{List, Memory};
use image_docs::LayerRow;
use std::alloc::Global;

/// A layer that was restored, with its contents or its metadata alone.
#[derive(Drop)]
pub struct RestoredRow {
    pub id: BpId,
    pub layer: LayerName,
    pub contents: bool,
}

/// The layers that were restored, in order; the numbers of the caches whose rows documents are refused, and of those
/// that were dropped, in the order of dropping; and for the gathering of rows and then each search, how many had been
/// dropped by its end.
#[derive(Drop)]
pub struct Restored {
    pub rows: List<RestoredRow>,
    pub unread: List<u32>,
    pub gone: List<u32>,
    pub searches: List<u32>,
}

/// What is restored before the first buildpack.
pub(crate) fn first(alloc: Global, unread: List<u32>, gone: List<u32>) -> Result<Restored, Memory>
    requires { length gone < 2 ^ 32 }
    ensures { IfOk result (λ restored. restored ≡ gathered_first unread gone) }
{
    let mut searches = List::new(alloc);
    searches.push(gone.as_slice().len() as u32)?;
    Ok(Restored {
        rows: List::new(alloc),
        unread,
        gone,
        searches,
    })
}

/// One search more, which dropped these caches.
pub(crate) fn after_search(restored: Restored, more: &List<u32>) -> Result<Restored, Memory>
    requires { length restored.gone + length more.now < 2 ^ 32 }
    ensures { IfOk result (λ after. after ≡ after_search more.now restored) }
{
    let Restored {
        rows,
        unread,
        gone,
        mut searches,
    } = restored;
    let mut gone = gone.into_vec();
    gone.extend_from_slice(more.as_slice())?;
    searches.push(gone.len() as u32)?;
    Ok(Restored {
        rows,
        unread,
        gone: List::from_vec(gone),
        searches,
    })
}

fn restored_row(alloc: Global, row: &LayerRow, contents: bool) -> Result<RestoredRow, Memory>
    ensures { IfOk result (λ restored. restored ≡ restored_row row.now contents) }
{
    Ok(RestoredRow {
        id: row.id.copy(alloc)?,
        layer: row.layer.copy(alloc)?,
        contents,
    })
}

/// One layer more.
pub(crate) fn with_layer(
    alloc: Global,
    mut restored: Restored,
    row: &LayerRow,
    contents: bool,
) -> Result<Restored, Memory>
    ensures { IfOk result (λ after. after ≡ with_layer row.now contents restored) }
{
    restored.rows.push(restored_row(alloc, row, contents)?)?;
    Ok(restored)
}

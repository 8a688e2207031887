// The layers of an image, and those that a cache keeps.
ghost use Rattle.std.specs.Prelude.{◌≡◌, IfOk, List as Seq};
ghost use Rattle.std.specs.HashSet.{contains};
ghost use Rattle.toml.specs.View.{table_view};
ghost use Rattle.cnb_toml.specs.Distinct.{HasKeysOf};
ghost use Rattle.cnb_toml.specs.Reading.{Answers};
ghost use Rattle.image_docs.specs.DistinctRows.{may_follow, unless_listed};
ghost use Rattle.image_docs.specs.declared.layer_row.LayerRow.{LayerRow};
ghost use Rattle.image_docs.specs.LayerRow.{cache_flag, layer_in, layer_key, same_layer, layer_row_in, has_layer_names};
ghost use Rattle.image_docs.specs.LayerRow.{is_layer_row, layer_members};
ghost use Rattle.image_docs.specs.LayerRowLaws.{layer_dates, layer_row_read, layer_row_within};

use crate::digest_text::DigestText;
use cnb_toml::{
    BpId, DocFault, LayerName, Meta, RowForm, WrittenRow, metadata_at, put_at, put_metadata,
    required_at, see_key, truth_at,
};
use cnb_world::Memory;
use layer_flags::Flags;
use std::alloc::Global;
use std::collections::HashSet;
use toml::Table;
use tree_canon::Digest;

/// A layer of an image or of a cache: whose it is and what it is for, its metadata, and the tree of its contents.
#[derive(Drop)]
pub struct LayerRow {
    pub id: BpId,
    pub layer: LayerName,
    pub flags: Flags,
    pub meta: Meta,
    pub digest: Digest,
}

/// What tells one layer from another.
#[derive(PartialEq, Eq, Hash, Drop)]
pub struct LayerKey {
    id: BpId,
    layer: LayerName,
}

/// A layer that none before it is. Those of a cache have the flag `cache`.
pub struct LayerTable<const CACHED: bool>;

impl<const CACHED: bool> RowForm for LayerTable<CACHED> {
    type Value = LayerRow;

    /// The layers before.
    type Seen = HashSet<LayerKey>;

    ghost row_in = { layer_row_in CACHED };

    ghost keeps = { λ before seen. HasKeysOf same_layer layer_key before seen };

    fn none_seen(alloc: Global) -> HashSet<LayerKey> {
        HashSet::new(alloc)
    }

    fn read(alloc: Global, seen: &HashSet<LayerKey>, table: &Table) -> Result<LayerRow, DocFault> {
        let row = layer_in(alloc, CACHED, table)?;
        unless_seen(alloc, seen, row)
    }

    fn see(alloc: Global, seen: &mut HashSet<LayerKey>, row: &LayerRow) -> Result<(), Memory> {
        let key = layer_key(alloc, row)?;
        see_key(seen, key)?;
        Ok(())
    }
}

impl<const CACHED: bool> WrittenRow for LayerTable<CACHED> {
    ghost members_of = { layer_members };

    ghost is_typed = { has_layer_names };

    ghost follows = { may_follow same_layer layer_key (is_layer_row CACHED) };

    ghost nesting = { 33 };

    fn write(alloc: Global, row: &LayerRow) -> Result<Table, Memory> {
        let mut table = Table::new(alloc);
        put_at::<BpId>(alloc, &mut table, "id", &row.id)?;
        put_at::<LayerName>(alloc, &mut table, "layer", &row.layer)?;
        put_at::<bool>(alloc, &mut table, "launch", &row.flags.launch)?;
        put_at::<bool>(alloc, &mut table, "build", &row.flags.build)?;
        put_at::<bool>(alloc, &mut table, "cache", &row.flags.cache)?;
        put_at::<DigestText>(alloc, &mut table, "digest", &row.digest)?;
        put_metadata(alloc, &mut table, &row.meta)?;
        Ok(table)
    }

    ghost reads_back = { layer_row_read CACHED };

    ghost dates = { layer_dates };

    ghost within = { layer_row_within CACHED };
}

/// The key of a layer.
pub fn layer_key(alloc: Global, row: &LayerRow) -> Result<LayerKey, Memory>
    ensures { IfOk result (λ key. key ≡ layer_key row.now) }
{
    let id = row.id.copy(alloc)?;
    let layer = row.layer.copy(alloc)?;
    Ok(LayerKey { id, layer })
}

fn is_seen(alloc: Global, seen: &HashSet<LayerKey>, row: &LayerRow) -> Result<bool, Memory>
    ensures { IfOk result (λ is_seen. is_seen ≡ contains same_layer seen.now (layer_key row.now)) }
{
    let key = layer_key(alloc, row)?;
    let is_seen = seen.contains(&key);
    Ok(is_seen)
}

fn unless_seen(alloc: Global, seen: &HashSet<LayerKey>, row: LayerRow) -> Result<LayerRow, DocFault>
    ensures { (before : Seq LayerRow) → HasKeysOf same_layer layer_key before seen.now
        → Answers result (unless_listed same_layer layer_key before row) }
{
    if is_seen(alloc, seen, &row)? {
        Err(DocFault::wrong(alloc))
    } else {
        Ok(row)
    }
}

fn cache_flag(alloc: Global, cached: bool, cache: bool) -> Result<bool, DocFault>
    ensures { Answers result (cache_flag cached cache) }
{
    if cached && !cache {
        return Err(DocFault::wrong(alloc).under(alloc, "cache"));
    }
    Ok(cache)
}

fn layer_in(alloc: Global, cached: bool, table: &Table) -> Result<LayerRow, DocFault>
    ensures { Answers result (layer_in cached (table_view table.now)) }
{
    let id = required_at::<BpId>(alloc, table, "id")?;
    let layer = required_at::<LayerName>(alloc, table, "layer")?;
    let launch = truth_at(alloc, table, "launch")?;
    let build = truth_at(alloc, table, "build")?;
    let cache = truth_at(alloc, table, "cache")?;
    let cache = cache_flag(alloc, cached, cache)?;
    let digest = required_at::<DigestText>(alloc, table, "digest")?;
    let meta = metadata_at(alloc, table)?;
    Ok(LayerRow {
        id,
        layer,
        flags: Flags {
            launch,
            build,
            cache,
        },
        meta,
        digest,
    })
}

// `<layer>.toml`.
ghost use Rattle.std.specs.Prelude.{◌≡◌, true, refl, IfOk, IsTrue, Ok};
ghost use Rattle.cnb_toml.specs.Document.{document_in};
ghost use Rattle.cnb_toml.specs.Reading.{Answers};
ghost use Rattle.cnb_toml.specs.WrittenLaws.{zero_within};
ghost use Rattle.run_docs.specs.Layer.{types_in, types_members, table_in, layer_in, is_layer_doc, layer_members};
ghost use Rattle.run_docs.specs.LayerLaws.{layer_read, layer_dates, layer_within};

use cnb_toml::{
    DocFault, Meta, TableForm, TableOf, WrittenTable, metadata_at, put_at, put_metadata,
    read_document, truth_at, value_or, write_document,
};
use cnb_world::{Bytes, Memory};
use std::alloc::Global;
use toml::Table;

/// What a buildpack says of one of its layers (buildpack.md, "Layer Content Metadata (TOML)").
#[derive(Drop)]
pub struct LayerDoc {
    pub launch: bool,
    pub build: bool,
    pub cache: bool,
    pub meta: Meta,
}

/// What a layer is for, its table `types`.
#[derive(Clone, Copy)]
struct LayerTypes {
    launch: bool,
    build: bool,
    cache: bool,
}

const NO_TYPES: LayerTypes = LayerTypes {
    launch: false,
    build: false,
    cache: false,
};

impl TableForm for LayerTypes {
    type Value = LayerTypes;

    ghost value_in = { types_in };

    fn read(alloc: Global, table: &Table) -> Result<LayerTypes, DocFault> {
        let launch = truth_at(alloc, table, "launch")?;
        let build = truth_at(alloc, table, "build")?;
        let cache = truth_at(alloc, table, "cache")?;
        Ok(LayerTypes {
            launch,
            build,
            cache,
        })
    }
}

impl WrittenTable for LayerTypes {
    ghost members_of = { types_members };

    ghost is_typed = { λ _. true };

    ghost is_sound = { λ _. true };

    ghost nesting = { 0 };

    fn write(alloc: Global, types: &LayerTypes) -> Result<Table, Memory> {
        let mut table = Table::new(alloc);
        put_at::<bool>(alloc, &mut table, "launch", &types.launch)?;
        put_at::<bool>(alloc, &mut table, "build", &types.build)?;
        put_at::<bool>(alloc, &mut table, "cache", &types.cache)?;
        Ok(table)
    }

    ghost reads_back = { λ types typed sound. refl };

    ghost dates = { λ types. refl };

    ghost within = { λ types sound. zero_within 0 };
}

impl TableForm for LayerDoc {
    type Value = LayerDoc;

    ghost value_in = { table_in };

    fn read(alloc: Global, table: &Table) -> Result<LayerDoc, DocFault> {
        let types = value_or::<TableOf<LayerTypes>>(alloc, table, "types", NO_TYPES)?;
        let meta = metadata_at(alloc, table)?;
        Ok(LayerDoc {
            launch: types.launch,
            build: types.build,
            cache: types.cache,
            meta,
        })
    }
}

impl WrittenTable for LayerDoc {
    ghost members_of = { layer_members };

    ghost is_typed = { λ _. true };

    ghost is_sound = { is_layer_doc };

    ghost nesting = { 33 };

    fn write(alloc: Global, layer: &LayerDoc) -> Result<Table, Memory> {
        let types = LayerTypes {
            launch: layer.launch,
            build: layer.build,
            cache: layer.cache,
        };
        let mut table = Table::new(alloc);
        put_at::<TableOf<LayerTypes>>(alloc, &mut table, "types", &types)?;
        put_metadata(alloc, &mut table, &layer.meta)?;
        Ok(table)
    }

    ghost reads_back = { layer_read };

    ghost dates = { layer_dates };

    ghost within = { layer_within };
}

/// Reads `<layer>.toml`. The first fault in the order of keys is answered, as `types.cache`.
pub fn read_layer(alloc: Global, bytes: &[u8]) -> Result<LayerDoc, DocFault>
    ensures { Answers result (layer_in bytes.now) }
{
    read_document::<LayerDoc>(alloc, bytes)
}

/// The text of `<layer>.toml`.
pub fn write_layer(alloc: Global, value: &LayerDoc) -> Result<Bytes, Memory>
    ensures written { IfOk result (λ bytes. IsTrue (is_layer_doc value.now)
        → document_in bytes ≡ Ok (layer_members value.now)) }
    ensures reads_back { IfOk result (λ bytes. IsTrue (is_layer_doc value.now) → layer_in bytes ≡ Ok value.now) }
{
    write_document::<LayerDoc>(alloc, value)
}

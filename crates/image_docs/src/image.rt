// Images.
ghost use Rattle.std.specs.Prelude.{◌≡◌, true, IfOk, IsTrue, Ok};
ghost use Rattle.std.proofs.Common.{refl};
ghost use Rattle.toml.specs.Data.{integer};
ghost use Rattle.toml.specs.View.{table_view};
ghost use Rattle.cnb_toml.specs.Document.{document_in};
ghost use Rattle.cnb_toml.specs.Reading.{Answers};
ghost use Rattle.cnb_toml.specs.WrittenLaws.{zero_within};
ghost use Rattle.image_docs.specs.Image.{is_known, is_one, rows_of_version, version_in, version_of, provided_in};
ghost use Rattle.image_docs.specs.Image.{image_table_in, image_in, has_image_names, is_image_doc, image_members};
ghost use Rattle.image_docs.specs.ImageLaws.{version_read, image_read, image_dates, image_within};

use crate::base::Base;
use crate::env_rows::EnvRows;
use crate::launch_doc::LaunchDoc;
use crate::layer_row::{LayerRow, LayerTable};
use crate::old_row::old_rows_at;
use crate::row::{Row, rows_at};
use crate::store_row::StoreRow;
use cnb_toml::{
    DocFault, Form, ImageName, Label, ListOf, RowsOf, TableForm, TableOf, Written, WrittenTable,
    list_at, put_at, read_document, required_at, value_or, write_document,
};
use cnb_world::{Bytes, Env, List, Memory, Path};
use std::alloc::Global;
use toml::{Table, Value};

/// An image: the run image that it stands on, its rows from the lowest, its environment, what starts it, and what the
/// next build is to know. In one that can be read no two layers and no two rows of the store are one buildpack's.
#[derive(Drop)]
pub struct ImageDoc {
    pub base: Base,
    pub rows: List<Row>,
    pub env: Env,
    pub entrypoint: Path,
    pub labels: List<Label>,
    pub launch: LaunchDoc,
    pub layers: List<LayerRow>,
    pub store: List<StoreRow>,
}

/// The version of the layout, as a value.
struct Version;

const VERSION: i64 = 2;

impl Form for Version {
    type Value = i64;

    ghost value_of = { version_of };

    fn read(alloc: Global, value: &Value) -> Result<i64, DocFault> {
        match value.as_integer() {
            Some(number) => version_in(alloc, number),
            None => Err(DocFault::wrong(alloc)),
        }
    }
}

impl Written for Version {
    ghost data_of = { integer };

    ghost is_typed = { λ _. true };

    ghost is_sound = { is_known };

    ghost nesting = { 0 };

    fn write(_: Global, number: &i64) -> Result<Value, Memory> {
        Ok(Value::Integer(*number))
    }

    ghost reads_back = { λ number typed sound. version_read number sound };

    ghost dates = { λ number. refl };

    ghost within = { λ number sound. zero_within 0 };
}

fn version_in(alloc: Global, number: i64) -> Result<i64, DocFault>
    ensures { Answers result (version_in number) }
{
    match number {
        1 | 2 => Ok(number),
        _ => Err(DocFault::wrong(alloc)),
    }
}

// Rows of version 1 don't say what made them: that is made of the base's name, and of what each holds and where.
fn rows_of_version(
    alloc: Global,
    version: i64,
    base: &ImageName,
    table: &Table,
) -> Result<List<Row>, DocFault>
    ensures { Answers result (rows_of_version version base.now (table_view table.now)) }
{
    if version == 1 {
        old_rows_at(alloc, base, table)
    } else {
        rows_at(alloc, table)
    }
}

impl TableForm for ImageDoc {
    type Value = ImageDoc;

    ghost value_in = { image_table_in };

    fn read(alloc: Global, table: &Table) -> Result<ImageDoc, DocFault> {
        let version = required_at::<Version>(alloc, table, "version")?;
        let base = required_at::<TableOf<Base>>(alloc, table, "base")?;
        let rows = rows_of_version(alloc, version, &base.name, table)?;
        let env = value_or::<EnvRows>(alloc, table, "env", Env::new(alloc))?;
        let entrypoint = required_at::<Path>(alloc, table, "entrypoint")?;
        let provided = <Provided as TableForm>::read(alloc, table)?;
        Ok(ImageDoc {
            base,
            rows,
            env,
            entrypoint,
            labels: provided.labels,
            launch: provided.launch,
            layers: provided.layers,
            store: provided.store,
        })
    }
}

/// What buildpacks gave to an image, as its table holds it.
#[derive(Drop)]
struct Provided {
    labels: List<Label>,
    launch: LaunchDoc,
    layers: List<LayerRow>,
    store: List<StoreRow>,
}

impl TableForm for Provided {
    type Value = Provided;

    ghost value_in = { provided_in };

    fn read(alloc: Global, table: &Table) -> Result<Provided, DocFault> {
        let labels = list_at::<TableOf<Label>>(alloc, table, "labels")?;
        let launch = required_at::<TableOf<LaunchDoc>>(alloc, table, "launch")?;
        let layers = value_or::<RowsOf<LayerTable<false>>>(
            alloc,
            table,
            "layers",
            List::new(alloc),
        )?;
        let store = value_or::<RowsOf<StoreRow>>(alloc, table, "store", List::new(alloc))?;
        Ok(Provided {
            labels,
            launch,
            layers,
            store,
        })
    }
}

impl WrittenTable for ImageDoc {
    ghost members_of = { image_members };

    ghost is_typed = { has_image_names };

    ghost is_sound = { is_image_doc };

    ghost nesting = { 35 };

    fn write(alloc: Global, image: &ImageDoc) -> Result<Table, Memory> {
        let mut table = Table::new(alloc);
        put_at::<Version>(alloc, &mut table, "version", &VERSION)?;
        put_at::<TableOf<Base>>(alloc, &mut table, "base", &image.base)?;
        put_at::<ListOf<TableOf<Row>>>(alloc, &mut table, "rows", &image.rows)?;
        put_at::<EnvRows>(alloc, &mut table, "env", &image.env)?;
        put_at::<Path>(alloc, &mut table, "entrypoint", &image.entrypoint)?;
        put_at::<ListOf<TableOf<Label>>>(alloc, &mut table, "labels", &image.labels)?;
        put_at::<TableOf<LaunchDoc>>(alloc, &mut table, "launch", &image.launch)?;
        put_at::<RowsOf<LayerTable<false>>>(alloc, &mut table, "layers", &image.layers)?;
        put_at::<RowsOf<StoreRow>>(alloc, &mut table, "store", &image.store)?;
        Ok(table)
    }

    ghost reads_back = { image_read };

    ghost dates = { image_dates };

    ghost within = { image_within };
}

/// Reads an image of version 1 or 2. The first fault in the order of keys and rows is answered, as `rows.0.place`; what holds of a whole
/// list is judged behind its rows.
pub fn read_image(alloc: Global, bytes: &[u8]) -> Result<ImageDoc, DocFault>
    ensures image { Answers result (image_in bytes.now) }
    ensures readable { IfOk result (λ image. IsTrue (is_image_doc image)) }
{
    read_document::<ImageDoc>(alloc, bytes)
}

/// The text of an image, in version 2.
pub fn write_image(alloc: Global, value: &ImageDoc) -> Result<Bytes, Memory>
    ensures written { IfOk result (λ bytes. IsTrue (is_image_doc value.now)
        → document_in bytes ≡ Ok (image_members value.now)) }
    ensures reads_back { IfOk result (λ bytes. IsTrue (is_image_doc value.now) → image_in bytes ≡ Ok value.now) }
{
    write_document::<ImageDoc>(alloc, value)
}

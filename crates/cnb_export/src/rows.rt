// The rows of an image.
ghost use Rattle.std.specs.Prelude.{◌≡◌, ◌++◌, ◌∷◌, [], IfOk, IsTrue, OnOk, map};
ghost use Rattle.std.specs.List.{list_all};
ghost use Rattle.cnb_world.specs.Path.{is_path, is_short_path};
ghost use Rattle.image_docs.specs.Row.{is_row, role_text};
ghost use Rattle.cnb_export.specs.Rows.{app_row, launcher_row, layer_by, layer_place, layer_row, process_rows, rows_of};
ghost use Rattle.cnb_export.specs.Rows.{version_of};

use crate::exported::{Digests, ImageFrame};
use cnb_layers::{Gathered, ImageLayer};
use cnb_toml::BpId;
use cnb_world::{List, Memory, Path, PathFault, Text};
use image_docs::{LayerRow, Role, Row, plain};
use image_files::push_run_rows;
use run_docs::GroupRow;
use std::alloc::Global;
use tree_canon::Digest;

/// A path that is written out.
pub(crate) fn constant(alloc: Global, text: &str) -> Result<Path, Memory>
    requires { IsTrue (is_path text.now) }
    ensures { IfOk result (λ path. path ≡ text.now) }
{
    match Path::parse(alloc, text) {
        Ok(path) => Ok(path),
        Err(PathFault::Memory) => Err(Memory),
        Err(PathFault::NotPath) => unreachable!(),
    }
}

// Where a layer stands in the image.
#[tactic(auto, using(crate::proofs::PlaceLaws::place_short))]
fn layer_place(alloc: Global, row: &LayerRow) -> Result<Path, Memory>
    ensures place { IfOk result (λ place. place ≡ layer_place row.now) }
    ensures short { OnOk result (IsTrue (is_short_path (layer_place row.now))) }
{
    let folder = row.id.folder(alloc)?;
    let layers = constant(alloc, "/layers")?;
    let folder = layers.below(alloc, folder.as_str())?;
    let place = folder.below(alloc, row.layer.as_str())?;
    Ok(place)
}

// A row of which the word of its role says what made it.
fn add_row(
    alloc: Global,
    rows: &mut List<Row>,
    role: Role,
    place: &str,
    digest: &Digest,
) -> Result<(), Memory>
    requires { IsTrue (is_path place.now) }
    ensures { OnOk result (rows.new ≡ rows.old
        ++ record { role = role; place = place.now; digest = digest.now; by = role_text role } ∷ []) }
{
    let place = constant(alloc, place)?;
    let by = Text::of(alloc, role.as_str())?;
    rows.push(Row {
        role,
        place,
        digest: *digest,
        by,
    })
}

// The version of the group's first buildpack of this id; nothing where there is none.
fn version_of<'a>(group: &'a [GroupRow], id: &BpId) -> &'a str
    ensures { result.now ≡ version_of group.now id.now }
{
    for row in group {
        if row.key.id == *id {
            return row.key.version.as_str();
        }
    }
    ""
}

// What made a layer, as `example/jvm@1.0.0:jre`.
fn layer_by(alloc: Global, group: &[GroupRow], row: &LayerRow) -> Result<Text, Memory>
    ensures { IfOk result (λ by. by ≡ layer_by group.now row.now) }
{
    let mut by = String::from_str(alloc, row.id.as_str())?;
    by.push_str("@")?;
    by.push_str(version_of(group, &row.id))?;
    by.push_str(":")?;
    by.push_str(row.layer.as_str())?;
    plain(alloc, by.as_str())
}

#[tactic(auto, using(crate::proofs::PlaceLaws::placed_more))]
fn add_layer_rows(
    alloc: Global,
    rows: &mut List<Row>,
    group: &[GroupRow],
    layers: &[ImageLayer],
) -> Result<(), Memory>
    ensures rows { OnOk result (rows.new ≡ rows.old ++ map (layer_row group.now) layers.now) }
    ensures placed { OnOk result (IsTrue (list_all is_row (map (layer_row group.now) layers.now))) }
{
    for layer in layers {
        let place = layer_place(alloc, &layer.row)?;
        let by = layer_by(alloc, group, &layer.row)?;
        rows.push(Row {
            role: Role::Layer,
            place,
            digest: layer.row.digest,
            by,
        })?;
    }
    Ok(())
}

fn add_app_rows(alloc: Global, rows: &mut List<Row>, app: &[Digest]) -> Result<(), Memory>
    ensures { OnOk result (rows.new ≡ rows.old ++ map app_row app.now) }
{
    for digest in app {
        add_row(alloc, rows, Role::App, "/workspace", digest)?;
    }
    Ok(())
}

fn add_process_row(
    alloc: Global,
    rows: &mut List<Row>,
    process: &Option<Digest>,
) -> Result<(), Memory>
    ensures { OnOk result (rows.new ≡ rows.old ++ process_rows process.now) }
{
    match process {
        Some(digest) => add_row(alloc, rows, Role::Process, "/cnb/process", digest),
        None => Ok(()),
    }
}

/// The rows of an image, from the lowest: those of its run image, its layers, the application, the launcher, and the
/// links of its process types, where there are any.
pub(crate) fn image_rows(
    alloc: Global,
    frame: &ImageFrame,
    gathered: &Gathered,
    digests: &Digests,
) -> Result<List<Row>, Memory>
    ensures rows { IfOk result (λ rows. rows
        ≡ rows_of frame.now.name.now frame.now.run.now frame.now.group.now gathered.now.layers digests.now) }
    ensures placed { OnOk result (IsTrue (list_all is_row (map (layer_row frame.now.group.now) gathered.now.layers))) }
{
    let mut rows = List::new(alloc);
    push_run_rows(alloc, &mut rows, frame.name, frame.run.rows.as_slice())?;
    add_layer_rows(
        alloc,
        &mut rows,
        frame.group.as_slice(),
        gathered.layers.as_slice(),
    )?;
    add_app_rows(alloc, &mut rows, digests.app.as_slice())?;
    add_row(
        alloc,
        &mut rows,
        Role::Launcher,
        "/cnb/lifecycle",
        &digests.launcher,
    )?;
    add_process_row(alloc, &mut rows, &digests.process)?;
    Ok(rows)
}

// The rows of an image of version 1.
ghost use Rattle.std.specs.Prelude.{◌≡◌, IfOk, map};
ghost use Rattle.toml.specs.View.{table_view};
ghost use Rattle.cnb_toml.specs.Reading.{Answers};
ghost use Rattle.image_docs.specs.OldRow.{migrated, migrated_by, old_by, old_row_in, old_rows_at};

use crate::by::{plain, run_by};
use crate::digest_text::DigestText;
use crate::row::{Role, Row, ordered_rows};
use cnb_toml::{DocFault, ImageName, TableForm, TableOf, list_at, required_at};
use cnb_world::{List, Memory, Path, Text};
use std::alloc::Global;
use toml::Table;
use tree_canon::Digest;

/// A row of an image of version 1, which doesn't say what made it.
#[derive(Drop)]
struct OldRow {
    role: Role,
    place: Path,
    digest: Digest,
}

impl TableForm for OldRow {
    type Value = OldRow;

    ghost value_in = { old_row_in };

    fn read(alloc: Global, table: &Table) -> Result<OldRow, DocFault> {
        let role = required_at::<Role>(alloc, table, "role")?;
        let place = required_at::<Path>(alloc, table, "place")?;
        let digest = required_at::<DigestText>(alloc, table, "digest")?;
        Ok(OldRow {
            role,
            place,
            digest,
        })
    }
}

fn migrated_by(alloc: Global, role: Role, place: &Path) -> Result<Text, Memory>
    ensures { IfOk result (λ by. by ≡ migrated_by role place.now) }
{
    let place = plain(alloc, place.as_str())?;
    let mut by = String::from_str(alloc, "migrated ")?;
    by.push_str(role.as_str())?;
    by.push_str(" ")?;
    by.push_str(place.as_str())?;
    Ok(Text::from_string(by))
}

fn old_by(alloc: Global, base: &ImageName, role: Role, place: &Path) -> Result<Text, Memory>
    ensures { IfOk result (λ by. by ≡ old_by base.now role place.now) }
{
    match role {
        Role::Run => run_by(alloc, base),
        Role::Layer => migrated_by(alloc, Role::Layer, place),
        Role::App => migrated_by(alloc, Role::App, place),
        Role::Launcher => migrated_by(alloc, Role::Launcher, place),
        Role::Process => migrated_by(alloc, Role::Process, place),
    }
}

fn migrated(alloc: Global, base: &ImageName, old: OldRow) -> Result<Row, Memory>
    ensures { IfOk result (λ row. row ≡ migrated base.now old) }
{
    let by = old_by(alloc, base, old.role, &old.place)?;
    let OldRow {
        role,
        place,
        digest,
    } = old;
    Ok(Row {
        role,
        place,
        digest,
        by,
    })
}

fn all_migrated(alloc: Global, base: &ImageName, old: List<OldRow>) -> Result<List<Row>, Memory>
    ensures { IfOk result (λ rows. rows ≡ map (migrated base.now) old) }
{
    let mut rows = List::new(alloc);
    for row in old.into_vec() {
        rows.push(migrated(alloc, base, row)?)?;
    }
    Ok(rows)
}

/// The rows at the key `rows` of an image on the run image of this name.
pub fn old_rows_at(alloc: Global, base: &ImageName, table: &Table) -> Result<List<Row>, DocFault>
    ensures { Answers result (old_rows_at base.now (table_view table.now)) }
{
    let old = list_at::<TableOf<OldRow>>(alloc, table, "rows")?;
    let rows = all_migrated(alloc, base, old)?;
    ordered_rows(alloc, rows)
}

// The rows of an image.
ghost use Rattle.std.specs.Prelude.{◌≡◌, ◌&&◌, not, true, [], IfOk, IsTrue};
ghost use Rattle.std.specs.List.{list_all};
ghost use Rattle.std.proofs.Common.{refl};
ghost use Rattle.toml.specs.View.{table_view};
ghost use Rattle.cnb_toml.specs.Reading.{Answers};
ghost use Rattle.cnb_toml.specs.WrittenLaws.{zero_within};
ghost use Rattle.image_docs.specs.Row.{role_text, role_in, role_of, role_data, row_in, is_run, run_rows_first};
ghost use Rattle.image_docs.specs.Row.{are_ordered, ordered_rows, rows_at, has_digest, is_row, row_members};
ghost use Rattle.image_docs.specs.RowLaws.{role_read, row_read};

use crate::by::ByText;
use crate::digest_text::DigestText;
use cnb_toml::{
    DocFault, Form, TableForm, TableOf, Written, WrittenTable, list_at, put_at, required_at,
};
use cnb_world::{List, Memory, Path, Text};
use std::alloc::Global;
use toml::{Table, Value};
use tree_canon::Digest;

/// What a row of an image holds.
#[derive(Clone, Copy, Debug, PartialEq, Eq)]
pub enum Role {
    Run,
    Layer,
    App,
    Launcher,
    Process,
}

/// A row of an image: what it holds, where it is laid, its tree, and what made it, in one line for people, as
/// `example/jvm@1.0.0:jre`.
#[derive(Drop)]
pub struct Row {
    pub role: Role,
    pub place: Path,
    pub digest: Digest,
    pub by: Text,
}

impl Role {
    /// The word that documents have for the role.
    pub fn as_str(self) -> &'static str
        ensures { result.now ≡ role_text self }
    {
        match self {
            Role::Run => "run",
            Role::Layer => "layer",
            Role::App => "app",
            Role::Launcher => "launcher",
            Role::Process => "process",
        }
    }
}

impl Form for Role {
    type Value = Role;

    ghost value_of = { role_of };

    fn read(alloc: Global, value: &Value) -> Result<Role, DocFault> {
        match value.as_str() {
            Some(text) => role_in(alloc, text),
            None => Err(DocFault::wrong(alloc)),
        }
    }
}

impl Written for Role {
    ghost data_of = { role_data };

    ghost is_typed = { λ _. true };

    ghost is_sound = { λ _. true };

    ghost nesting = { 0 };

    fn write(alloc: Global, role: &Role) -> Result<Value, Memory> {
        Ok(Value::string(alloc, role.as_str())?)
    }

    ghost reads_back = { λ role typed sound. role_read role };

    ghost dates = { λ role. refl };

    ghost within = { λ role sound. zero_within 0 };
}

impl TableForm for Row {
    type Value = Row;

    ghost value_in = { row_in };

    fn read(alloc: Global, table: &Table) -> Result<Row, DocFault> {
        let role = required_at::<Role>(alloc, table, "role")?;
        let place = required_at::<Path>(alloc, table, "place")?;
        let digest = required_at::<DigestText>(alloc, table, "digest")?;
        let by = required_at::<ByText>(alloc, table, "by")?;
        Ok(Row {
            role,
            place,
            digest,
            by,
        })
    }
}

impl WrittenTable for Row {
    ghost members_of = { row_members };

    ghost is_typed = { has_digest };

    ghost is_sound = { is_row };

    ghost nesting = { 0 };

    fn write(alloc: Global, row: &Row) -> Result<Table, Memory> {
        let mut table = Table::new(alloc);
        put_at::<Role>(alloc, &mut table, "role", &row.role)?;
        put_at::<Path>(alloc, &mut table, "place", &row.place)?;
        put_at::<DigestText>(alloc, &mut table, "digest", &row.digest)?;
        put_at::<ByText>(alloc, &mut table, "by", &row.by)?;
        Ok(table)
    }

    ghost reads_back = { row_read };

    ghost dates = { λ row. refl };

    ghost within = { λ row sound. zero_within 0 };
}

fn role_in(alloc: Global, text: &str) -> Result<Role, DocFault>
    ensures { Answers result (role_in text.now) }
{
    if text == "run" {
        Ok(Role::Run)
    } else if text == "layer" {
        Ok(Role::Layer)
    } else if text == "app" {
        Ok(Role::App)
    } else if text == "launcher" {
        Ok(Role::Launcher)
    } else if text == "process" {
        Ok(Role::Process)
    } else {
        Err(DocFault::wrong(alloc))
    }
}

fn is_run(row: &Row) -> bool
    ensures { result ≡ is_run row.now }
{
    row.role.as_str() == "run"
}

fn has_no_run_row(rows: &[Row]) -> bool
    ensures { result ≡ list_all (λ other. not (is_run other)) rows.now }
{
    rows.iter().all(|row| !is_run(row))
}

fn run_rows_first(rows: &[Row]) -> bool
    ensures { result ≡ run_rows_first rows.now }
{
    for (place, row) in rows.iter().enumerate() {
        if !is_run(row) {
            return has_no_run_row(&rows[place + 1..]);
        }
    }
    true
}

fn are_ordered(rows: &[Row]) -> bool
    ensures { result ≡ are_ordered rows.now }
{
    match rows {
        [first, rest @ ..] => {
            is_run(first) && first.place.as_str() == "/" && run_rows_first(rest)
        }
        [] => false,
    }
}

/// Rows of which those of the run image stand before all others, and the first of them at `/`.
pub fn ordered_rows(alloc: Global, rows: List<Row>) -> Result<List<Row>, DocFault>
    ensures { Answers result (ordered_rows rows) }
{
    if are_ordered(rows.as_slice()) {
        Ok(rows)
    } else {
        Err(DocFault::wrong(alloc).under(alloc, "rows"))
    }
}

/// The rows at the key `rows`: those of the run image stand before all others, and the first of them at `/`.
pub fn rows_at(alloc: Global, table: &Table) -> Result<List<Row>, DocFault>
    ensures { Answers result (rows_at (table_view table.now)) }
{
    let rows = list_at::<TableOf<Row>>(alloc, table, "rows")?;
    ordered_rows(alloc, rows)
}

// Metadata that is kept and handed on.
ghost use Rattle.std.specs.Prelude.{ℕ, codes, option_map, ◌≡◌, ◌≤◌, ◌+◌, ◌++◌, ◌∷◌, List as Seq, map, IfOk, IsTrue};
ghost use Rattle.toml.specs.Data.{array, table, no_members, as_table, get_member};
ghost use Rattle.toml.specs.View.{view, items_of, array_view, table_view};
ghost use Rattle.cnb_toml.specs.Reading.{Answers, IsFault};
ghost use Rattle.cnb_toml.specs.Writing.{put_all};
ghost use Rattle.cnb_toml.specs.Meta.{metadata_in, metadata_table, meta_in, meta_at, items_at, members_at, fault_below};
ghost use Rattle.cnb_toml.specs.Meta.{members_of, data_of, entry_of, is_kept, part_text};

use crate::fault::DocFault;
use crate::writing::put;
use cnb_world::{List, Memory, Text};
use std::alloc::Global;
use toml::value::Array;
use toml::{Table, Value};

/// A value of kept metadata. The keys of a table ascend.
#[cycle(meta)]
#[derive(Drop)]
pub enum Meta {
    Bool(bool),
    Int(i64),
    Text(Text),
    List(List<Meta>),
    Table(List<MetaEntry>),
}

/// A key of a table with its value.
#[cycle(meta)]
#[derive(Drop)]
pub struct MetaEntry {
    pub key: Text,
    pub value: Meta,
}

/// A requirement of a Build Plan: a name, and what the requiring buildpack says about it.
#[derive(Drop)]
pub struct Need {
    pub name: Text,
    pub meta: Meta,
}

/// A part of a key path: a key of a table, or a place in a list.
#[derive(Clone, Copy)]
enum PathPart<'a> {
    Key(&'a str),
    Place(usize),
}

/// How deep a value may stand: the values of the table that is read stand 1 deep, those in one of them 2 deep.
const DEEPEST: usize = 32;

impl Meta {
    /// Reads a table of a document. The fault is MetaKind, with the path of the first value that is neither a truth
    /// value, a whole number, a text, a list nor a table, or that stands more than 32 deep. `path` is the key path of
    /// the table itself, which is empty for the document's own table.
    #[tactic(auto, using(crate::proofs::Kept::read_kept))]
    pub fn from_table(alloc: Global, table: &Table, path: &str) -> Result<Meta, DocFault>
        ensures value { Answers result (meta_in path.now (table_view table.now)) }
        ensures kept { IfOk result (λ meta. IsTrue (is_kept meta)) }
    {
        match read_members(alloc, 1, table) {
            Ok(entries) => Ok(Meta::Table(entries)),
            Err(fault) if path.is_empty() => Err(fault),
            Err(fault) => Err(below(alloc, path, fault)),
        }
    }

    /// The table that the value is written as; a value that is no table gives an empty one.
    pub fn to_table(&self, alloc: Global) -> Result<Table, Memory>
        ensures table { IfOk result (λ table. table_view table ≡ members_of (data_of self.now)) }
        ensures reads_back { IfOk result (λ table. IsTrue (is_kept self.now)
            → (path : Seq ℕ) → meta_in path (table_view table) ≡ Ok self.now) }
    {
        match self {
            Meta::Table(entries) => write_table(alloc, entries.as_slice()),
            _ => Ok(Table::new(alloc)),
        }
    }

    #[cycle(copy)]
    pub fn copy(&self, alloc: Global) -> Result<Meta, Memory>
        ensures { IfOk result (λ copy. copy ≡ self.now) }
    {
        match self {
            Meta::Bool(truth) => Ok(Meta::Bool(*truth)),
            Meta::Int(number) => Ok(Meta::Int(*number)),
            Meta::Text(text) => Ok(Meta::Text(text.copy(alloc)?)),
            Meta::List(list) => Ok(Meta::List(copy_list(alloc, list.as_slice())?)),
            Meta::Table(entries) => Ok(Meta::Table(copy_entries(alloc, entries.as_slice())?)),
        }
    }
}

impl Need {
    pub fn copy(&self, alloc: Global) -> Result<Need, Memory>
        ensures { IfOk result (λ copy. copy ≡ self.now) }
    {
        let name = self.name.copy(alloc)?;
        let meta = self.meta.copy(alloc)?;
        Ok(Need { name, meta })
    }
}

#[cycle(copy)]
fn copy_list(alloc: Global, list: &[Meta]) -> Result<List<Meta>, Memory>
    ensures { IfOk result (λ copies. copies ≡ list.now) }
{
    let mut copies = List::new(alloc);
    for meta in list {
        copies.push(meta.copy(alloc)?)?;
    }
    Ok(copies)
}

#[cycle(copy)]
fn copy_entries(alloc: Global, entries: &[MetaEntry]) -> Result<List<MetaEntry>, Memory>
    ensures { IfOk result (λ copies. copies ≡ entries.now) }
{
    let mut copies = List::new(alloc);
    for entry in entries {
        copies.push(copy_entry(alloc, entry)?)?;
    }
    Ok(copies)
}

#[cycle(copy)]
fn copy_entry(alloc: Global, entry: &MetaEntry) -> Result<MetaEntry, Memory>
    ensures { IfOk result (λ copy. copy ≡ entry.now) }
{
    Ok(MetaEntry {
        key: entry.key.copy(alloc)?,
        value: entry.value.copy(alloc)?,
    })
}

/// The metadata of a table of a document: what stands at its key `metadata`, by default an empty table.
pub fn metadata_at(alloc: Global, table: &Table) -> Result<Meta, DocFault>
    ensures { Answers result (metadata_in (table_view table.now)) }
{
    match metadata(table) {
        Some(value) => metadata_table(alloc, value),
        None => Ok(Meta::Table(List::new(alloc))),
    }
}

fn metadata_table(alloc: Global, value: &Value) -> Result<Meta, DocFault>
    ensures { Answers result (metadata_table (as_table (view value.now))) }
{
    match value.as_table() {
        Some(members) => Meta::from_table(alloc, members, "metadata"),
        None => Err(DocFault::wrong(alloc).under(alloc, "metadata")),
    }
}

fn metadata(table: &Table) -> Option<&Value>
    ensures { option_map (λ value. view value.now) result ≡ get_member (codes "metadata") (table_view table.now) }
{
    table.get("metadata")
}

#[cycle(read)]
fn read_value(
    alloc: Global,
    depth: usize,
    part: PathPart<'_>,
    value: &Value,
) -> Result<Meta, DocFault>
    requires { depth ≤ DEEPEST + 1 }
    ensures { Answers result (meta_at depth (part_text part.entry) (view value.now)) }
{
    if depth > DEEPEST {
        return Err(refused(alloc, part));
    }
    match value {
        Value::Boolean(truth) => Ok(Meta::Bool(*truth)),
        Value::Integer(number) => Ok(Meta::Int(*number)),
        Value::String(text) => Ok(Meta::Text(Text::of(alloc, text.as_str())?)),
        Value::Float(_) => Err(refused(alloc, part)),
        Value::Datetime(_) => Err(refused(alloc, part)),
        Value::Array(items) => read_list(alloc, depth, part, items),
        Value::Table(members) => read_table(alloc, depth, part, members),
    }
}

#[cycle(read)]
fn read_list(
    alloc: Global,
    depth: usize,
    part: PathPart<'_>,
    items: &Array,
) -> Result<Meta, DocFault>
    requires { depth ≤ DEEPEST }
    ensures { Answers result (meta_at depth (part_text part.entry) (array (array_view items.now))) }
{
    match read_items(alloc, depth + 1, items) {
        Ok(list) => Ok(Meta::List(list)),
        Err(fault) => Err(below_part(alloc, part, fault)),
    }
}

#[cycle(read)]
fn read_table(
    alloc: Global,
    depth: usize,
    part: PathPart<'_>,
    members: &Table,
) -> Result<Meta, DocFault>
    requires { depth ≤ DEEPEST }
    ensures { Answers result (meta_at depth (part_text part.entry) (table (table_view members.now))) }
{
    match read_members(alloc, depth + 1, members) {
        Ok(entries) => Ok(Meta::Table(entries)),
        Err(fault) => Err(below_part(alloc, part, fault)),
    }
}

#[cycle(read)]
fn read_items(alloc: Global, depth: usize, items: &Array) -> Result<List<Meta>, DocFault>
    requires { depth ≤ DEEPEST + 1 }
    ensures { Answers result (items_at depth 0 (array_view items.now)) }
{
    let mut list = List::new(alloc);
    for (place, item) in items.iter().enumerate() {
        list.push(read_value(alloc, depth, PathPart::Place(place), item)?)?;
    }
    Ok(list)
}

#[cycle(read)]
fn read_members(alloc: Global, depth: usize, members: &Table) -> Result<List<MetaEntry>, DocFault>
    requires { depth ≤ DEEPEST + 1 }
    ensures { Answers result (members_at depth (table_view members.now)) }
{
    let mut entries = List::new(alloc);
    for (key, value) in members.iter() {
        entries.push(MetaEntry {
            key: Text::of(alloc, key.as_str())?,
            value: read_value(alloc, depth, PathPart::Key(key.as_str()), value)?,
        })?;
    }
    Ok(entries)
}

fn part_text(alloc: Global, part: PathPart<'_>) -> Result<Text, Memory>
    ensures { IfOk result (λ text. text ≡ part_text part.entry) }
{
    match part {
        PathPart::Key(key) => Text::of(alloc, key),
        PathPart::Place(place) => match format!(in alloc; "{place}") {
            Ok(text) => Ok(Text::from_string(text)),
            Err(_) => Err(Memory),
        },
    }
}

fn refused(alloc: Global, part: PathPart<'_>) -> DocFault
    ensures { IsFault result (DocFault.MetaKind (part_text part.entry)) }
{
    match part_text(alloc, part) {
        Ok(path) => DocFault::MetaKind(path),
        Err(Memory) => DocFault::Memory,
    }
}

/// The fault of what stands below a key, or a place.
fn below_part(alloc: Global, part: PathPart<'_>, fault: DocFault) -> DocFault
    ensures { IsFault result (fault_below (part_text part.entry) fault) }
{
    match part_text(alloc, part) {
        Ok(key) => below(alloc, key.as_str(), fault),
        Err(Memory) => DocFault::Memory,
    }
}

/// The fault of what stands below a key.
fn below(alloc: Global, key: &str, fault: DocFault) -> DocFault
    ensures { IsFault result (fault_below key.now fault) }
{
    match fault {
        DocFault::MetaKind(path) => match joined(alloc, key, path.as_str()) {
            Ok(path) => DocFault::MetaKind(path),
            Err(Memory) => DocFault::Memory,
        },
        other => other,
    }
}

fn joined(alloc: Global, key: &str, path: &str) -> Result<Text, Memory>
    ensures { IfOk result (λ text. text ≡ key.now ++ 46 ∷ path.now) }
{
    let mut text = String::from_str(alloc, key)?;
    text.push_str(".")?;
    text.push_str(path)?;
    Ok(Text::from_string(text))
}

#[cycle(write)]
fn write_value(alloc: Global, meta: &Meta) -> Result<Value, Memory>
    ensures { IfOk result (λ value. view value ≡ data_of meta.now) }
{
    match meta {
        Meta::Bool(truth) => Ok(Value::Boolean(*truth)),
        Meta::Int(number) => Ok(Value::Integer(*number)),
        Meta::Text(text) => Ok(Value::String(String::from_str(alloc, text.as_str())?)),
        Meta::List(list) => Ok(Value::Array(write_list(alloc, list.as_slice())?)),
        Meta::Table(entries) => Ok(Value::Table(write_table(alloc, entries.as_slice())?)),
    }
}

#[cycle(write)]
fn write_list(alloc: Global, list: &[Meta]) -> Result<Array, Memory>
    ensures { IfOk result (λ items. array_view items ≡ items_of (map data_of list.now)) }
{
    let mut items = Array::new(alloc);
    for meta in list {
        items.push(write_value(alloc, meta)?)?;
    }
    Ok(items)
}

#[cycle(write)]
fn write_table(alloc: Global, entries: &[MetaEntry]) -> Result<Table, Memory>
    ensures { IfOk result (λ table. table_view table ≡ put_all (map entry_of entries.now) no_members) }
{
    let mut table = Table::new(alloc);
    for entry in entries {
        let value = write_value(alloc, &entry.value)?;
        put(alloc, &mut table, entry.key.as_str(), value)?;
    }
    Ok(table)
}

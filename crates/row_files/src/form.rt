// The keys that a table may have, and what they hold.
use crate::fault::RowFault;
use std::alloc::Global;
use toml::{Table, Value};

/// What a key holds.
#[cycle(form)]
pub enum Shape {
    Text,
    Flag,
    /// A number, with the least and the greatest that it may be.
    Number(i64, i64),
    /// Any table.
    Table,
    /// A table with the keys of a form.
    Form(&'static Form),
    /// A list of values of one shape.
    List(&'static Shape),
    /// A table of values of one shape, by any name.
    ByName(&'static Shape),
}

/// The keys of a table, those that it must have and those that it may have.
#[cycle(form)]
pub struct Form {
    pub needed: &'static [(&'static str, Shape)],
    pub optional: &'static [(&'static str, Shape)],
}

/// How many tables and lists may be in one another where a form says what they hold.
const MAX_LEVELS: u32 = 16;

// What is wrong with a key, and the name of the row that has it.
#[derive(Clone, Copy)]
struct Misfit<'a> {
    row: &'a str,
    key: &'a str,
    fault: &'static str,
}

/// Reads a file of rows. Another key than its form has, or another value, is a fault that names the key and its row.
pub fn read_file(alloc: Global, file: &str, text: &str, form: &Form) -> Result<Value, RowFault> {
    let table = parse(alloc, file, text)?;
    match check(alloc, file, form, &table) {
        Ok(()) => Ok(Value::Table(table)),
        Err(fault) => Err(fault),
    }
}

fn parse(alloc: Global, file: &str, text: &str) -> Result<Table, RowFault> {
    match toml::table_from_str(alloc, text) {
        Ok(table) => Ok(table),
        Err(error) => Err(RowFault::Wrong(format!(in alloc; "{file}: {error}")?)),
    }
}

fn check(alloc: Global, file: &str, form: &Form, table: &Table) -> Result<(), RowFault> {
    match check_table(file, form, table, MAX_LEVELS) {
        Ok(()) => Ok(()),
        Err(Misfit { row, key, fault }) => Err(RowFault::Wrong(format!(in alloc;
            "{file}: key `{key}` of `{row}` {fault}"
        )?)),
    }
}

#[cycle(check)]
fn check_table<'a>(
    row: &'a str,
    form: &Form,
    table: &'a Table,
    levels: u32,
) -> Result<(), Misfit<'a>> {
    let row = name_of(table).unwrap_or(row);
    if let Some(key) = missing(form, table) {
        let fault = "is missing";
        return Err(Misfit { row, key, fault });
    }
    for (key, value) in table {
        match shape_of(form, key) {
            Some(shape) => check_value(row, key, shape, value, levels)?,
            None => {
                let fault = "is unknown";
                return Err(Misfit { row, key, fault });
            }
        }
    }
    Ok(())
}

fn name_of(table: &Table) -> Option<&str> {
    table.get("name")?.as_str()
}

fn missing(form: &Form, table: &Table) -> Option<&'static str> {
    for (key, _) in form.needed {
        if !table.contains_key(*key) {
            return Some(key);
        }
    }
    None
}

fn shape_of(form: &Form, key: &str) -> Option<&'static Shape> {
    for (name, shape) in form.needed.iter().chain(form.optional) {
        if *name == key {
            return Some(shape);
        }
    }
    None
}

#[cycle(check)]
fn check_value<'a>(
    row: &'a str,
    key: &'a str,
    shape: &Shape,
    value: &'a Value,
    levels: u32,
) -> Result<(), Misfit<'a>> {
    let Some(levels) = levels.checked_sub(1) else {
        let fault = "has too many levels";
        return Err(Misfit { row, key, fault });
    };
    match (shape, value) {
        (Shape::Form(form), Value::Table(table)) => check_table(row, form, table, levels),
        (Shape::List(shape), Value::Array(values)) => check_list(row, key, shape, values, levels),
        (Shape::ByName(shape), Value::Table(table)) => check_names(row, shape, table, levels),
        _ => match mismatch(shape, value) {
            Some(fault) => Err(Misfit { row, key, fault }),
            None => Ok(()),
        },
    }
}

#[cycle(check)]
fn check_list<'a>(
    row: &'a str,
    key: &'a str,
    shape: &Shape,
    values: &'a [Value],
    levels: u32,
) -> Result<(), Misfit<'a>> {
    for value in values {
        check_value(row, key, shape, value, levels)?;
    }
    Ok(())
}

#[cycle(check)]
fn check_names<'a>(
    row: &'a str,
    shape: &Shape,
    table: &'a Table,
    levels: u32,
) -> Result<(), Misfit<'a>> {
    for (key, value) in table {
        check_value(row, key, shape, value, levels)?;
    }
    Ok(())
}

// What is wrong with a value of which no value inside is of a shape.
fn mismatch(shape: &Shape, value: &Value) -> Option<&'static str> {
    match (shape, value) {
        (Shape::Text, Value::String(_)) => None,
        (Shape::Flag, Value::Boolean(_)) => None,
        (Shape::Table, Value::Table(_)) => None,
        (Shape::Number(least, most), Value::Integer(number)) if least <= number && number <= most =>
            None,
        (Shape::Text, _) => Some("is no text"),
        (Shape::Flag, _) => Some("is neither true nor false"),
        (Shape::Number(..), _) => Some("is no number that it may be"),
        (Shape::List(_), _) => Some("is no list"),
        _ => Some("is no table"),
    }
}

// What a row of a file holds.
use crate::fault::RowFault;
use crate::fields::{Fields, text_of};
use crate::form::{Form, Shape};
use std::alloc::{AllocError, Global};
use std::collections::BTreeMap;
use toml::{Table, Value};

/// The form of a file of rows.
pub(crate) const FILE: Form = Form {
    needed: &[("row", Shape::List(&Shape::Form(&ROW)))],
    optional: &[],
};

const ROW: Form = Form {
    needed: &[
        ("name", Shape::Text),
        ("call", Shape::Text),
        ("want", Shape::Text),
    ],
    optional: &[("given", Shape::ByName(&Shape::Text))],
};

/// What a call is given, by names, and the text that is wanted of it.
#[derive(Drop)]
pub struct Row {
    pub name: String,
    pub call: String,
    pub given: BTreeMap<String, String>,
    pub want: String,
}

impl Row {
    pub(crate) fn of(alloc: Global, fields: Fields) -> Result<Row, AllocError> {
        let mut row = Row {
            name: String::new(alloc),
            call: String::new(alloc),
            given: BTreeMap::new(alloc),
            want: String::new(alloc),
        };
        match row.fill(alloc, fields) {
            Ok(()) => Ok(row),
            Err(error) => Err(error),
        }
    }

    fn fill(&mut self, alloc: Global, fields: Fields) -> Result<(), AllocError> {
        self.name.push_str(fields.text_or_empty("name"))?;
        self.call.push_str(fields.text_or_empty("call"))?;
        self.want.push_str(fields.text_or_empty("want"))?;
        match fields.value.get("given") {
            Some(Value::Table(given)) => self.give_all(alloc, given),
            _ => Ok(()),
        }
    }

    fn give_all(&mut self, alloc: Global, given: &Table) -> Result<(), AllocError> {
        for (name, value) in given {
            self.give(alloc, name, text_of(value))?;
        }
        Ok(())
    }

    fn give(&mut self, alloc: Global, name: &str, text: &str) -> Result<(), AllocError> {
        let name = String::from_str(alloc, name)?;
        self.given.insert(name, String::from_str(alloc, text)?)?;
        Ok(())
    }

    /// What is given under a name, or the empty text.
    pub fn text_or_empty(&self, name: &str) -> &str {
        match self.given.get(name) {
            Some(text) => text.as_str(),
            None => "",
        }
    }

    /// What is given under a name.
    pub fn text(&self, alloc: Global, name: &str) -> Result<&str, RowFault> {
        match self.given.get(name) {
            Some(text) => Ok(text.as_str()),
            None => Err(RowFault::wrong(alloc, "nothing is given as", name)),
        }
    }

    /// The number that is given under a name.
    pub fn number(&self, alloc: Global, name: &str) -> Result<u64, RowFault> {
        match self.text(alloc, name)?.parse() {
            Ok(number) => Ok(number),
            Err(_) => Err(RowFault::wrong(alloc, "no number is given as", name)),
        }
    }
}

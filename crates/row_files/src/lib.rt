//! Rows of data for programs of tests: what a call is given, and what is wanted of it.
//!
//! A test function is proved as code is, and with it its whole crate once more; a row costs nothing. So a program of
//! tests is a few calls that put an answer into words, and files of rows beside it in data/.
#![tactic(auto)]

mod answer;
mod fault;
mod fields;
mod form;
mod reading;
mod row;
mod running;

pub use answer::Answer;
pub use fault::RowFault;
pub use fields::{Fields, text_of};
pub use form::{Form, Shape, read_file};
pub use row::Row;
pub use running::run;

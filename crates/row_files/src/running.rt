// Going through the rows of files.
use crate::fault::RowFault;
use crate::fields::Fields;
use crate::form::read_file;
use crate::row::{FILE, Row};
use std::alloc::{AllocError, Global};
use std::fs;
use std::process::ExitCode;
use toml::Value;

/// Goes through the rows of files of the folder in which the program runs, and prints `ok NAME` for each row, or what
/// differs. The exit code is 0 where all rows are as wanted.
pub fn run<F: Fn(&HostRuntime, &Row) -> Result<String, RowFault>>(
    rt: &HostRuntime,
    files: &[&str],
    answer: F,
) -> Result<ExitCode, RowFault>
    requires { F.IsAlwaysCallable answer }
{
    let mut differ = 0u8;
    for name in files {
        let file = read(rt, name)?;
        if !run_rows(rt, &file, &answer)? {
            differ = 1;
        }
    }
    Ok(ExitCode::from(differ))
}

fn read(rt: &HostRuntime, name: &str) -> Result<Value, RowFault> {
    let text = fs::read_to_string(rt, name)?;
    read_file(rt.alloc(), name, text.as_str(), &FILE)
}

// Whether all rows of a file are as wanted.
fn run_rows<F: Fn(&HostRuntime, &Row) -> Result<String, RowFault>>(
    rt: &HostRuntime,
    file: &Value,
    answer: &F,
) -> Result<bool, RowFault>
    requires { F.IsAlwaysCallable answer.now }
{
    let mut all = true;
    for value in (Fields { value: file }).list("row") {
        all &= run_row(rt, Fields { value }, answer)?;
    }
    Ok(all)
}

fn run_row<F: Fn(&HostRuntime, &Row) -> Result<String, RowFault>>(
    rt: &HostRuntime,
    fields: Fields,
    answer: &F,
) -> Result<bool, RowFault>
    requires { F.IsAlwaysCallable answer.now }
{
    let row = Row::of(rt.alloc(), fields)?;
    let line = line_of(rt.alloc(), &row, &answer(rt, &row))?;
    println!(rt; "{line}")?;
    Ok(line.starts_with("ok "))
}

// The line of a row, which begins with `ok` where the row is as wanted.
fn line_of(
    alloc: Global,
    row: &Row,
    found: &Result<String, RowFault>,
) -> Result<String, AllocError> {
    let (name, want) = (&row.name, &row.want);
    match found {
        Ok(found) if found.as_str() == want.as_str() => format!(in alloc; "ok {name}"),
        Ok(found) => format!(in alloc; "differs {name}: `{found}` for `{want}`"),
        Err(fault) => format!(in alloc; "wrong {name}: {fault}"),
    }
}

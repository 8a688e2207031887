// Environments.
use crate::fault::LineFault;
use crate::texts::{given, shown};
use cnb_world::{Env, List, Text, Variable};
use row_files::Row;
use std::alloc::{AllocError, Global};

/// The environment after each line `NAME=VALUE` was set, and then the value of each name that is asked for.
pub(crate) fn variables(alloc: Global, row: &Row) -> Result<String, LineFault> {
    let mut env = Env::new(alloc);
    for variable in given_variables(alloc, row)?.into_vec() {
        let Variable { name, value } = variable;
        env.set(name, value)?;
    }
    told(alloc, &env.copy()?, given(row, "asked"))
}

/// The environment of the given lines `NAME=VALUE`, where their names ascend.
pub(crate) fn ascending(alloc: Global, row: &Row) -> Result<String, LineFault> {
    match Env::from_ascending(alloc, given_variables(alloc, row)?) {
        Some(env) => told(alloc, &env, given(row, "asked")),
        None => Err(LineFault::Failed),
    }
}

fn given_variables(alloc: Global, row: &Row) -> Result<List<Variable>, LineFault> {
    let mut variables = Vec::new(alloc);
    for line in given(row, "variables").lines() {
        let (name, value) = line.split_once('=').unwrap_or((line, ""));
        let name = Text::of(alloc, name)?;
        let value = Text::of(alloc, value)?;
        variables.push(Variable { name, value })?;
    }
    Ok(List::from_vec(variables))
}

/// The variables of an environment, a line each, and the values of the names that are asked for.
pub(crate) fn told(alloc: Global, env: &Env, asked: &str) -> Result<String, LineFault> {
    let mut told = String::new(alloc);
    for place in 0..env.len() {
        told.push_str(variable_line(alloc, env.name(place), env.value(place))?.as_str())?;
    }
    for name in asked.split_whitespace() {
        told.push_str(asked_line(alloc, name, env.get(name))?.as_str())?;
    }
    Ok(told)
}

fn variable_line(alloc: Global, name: &Text, value: &Text) -> Result<String, AllocError> {
    let value = shown(alloc, value.as_str().as_bytes())?;
    let name = name.as_str();
    format!(in alloc; "{name}={value}\n")
}

fn asked_line(alloc: Global, name: &str, value: Option<&Text>) -> Result<String, AllocError> {
    match value {
        Some(value) => format!(in alloc; "{name} is `{}`\n", value.as_str()),
        None => format!(in alloc; "{name} has no value\n"),
    }
}

// The environment of an image.
ghost use Rattle.std.specs.Prelude.{◌≡◌, ◌==◌, not, true, map, IfOk};
ghost use Rattle.std.specs.List.{list_all};
ghost use Rattle.std.proofs.Common.{refl};
ghost use Rattle.toml.specs.View.{array_view, items_of};
ghost use Rattle.cnb_toml.specs.Reading.{Answers};
ghost use Rattle.cnb_toml.specs.Written.{table_data};
ghost use Rattle.cnb_toml.specs.WrittenLaws.{zero_within};
ghost use Rattle.image_docs.specs.EnvRows.{variable_in, is_name_byte, is_variable, env_in, env_of, is_env};
ghost use Rattle.image_docs.specs.EnvRows.{variable_members, env_data};
ghost use Rattle.image_docs.specs.EnvRowsLaws.{env_read, env_dates, env_within};

use cnb_toml::{
    DocFault, Form, TableForm, TableOf, Written, WrittenTable, list_of, put_at, required_at,
};
use cnb_world::{Env, List, Memory, Text, Variable};
use std::alloc::Global;
use toml::value::Array;
use toml::{Table, Value};

/// The lists of variables with ascending names, as environments.
pub struct EnvRows;

impl Form for EnvRows {
    type Value = Env;

    ghost value_of = { env_of };

    fn read(alloc: Global, value: &Value) -> Result<Env, DocFault> {
        let variables = list_of::<TableOf<VariableRow>>(alloc, value)?;
        env_in(alloc, variables)
    }
}

impl Written for EnvRows {
    ghost data_of = { env_data };

    ghost is_typed = { λ _. true };

    ghost is_sound = { is_env };

    ghost nesting = { 2 };

    fn write(alloc: Global, env: &Env) -> Result<Value, Memory> {
        Ok(Value::Array(written_variables(alloc, env.variables())?))
    }

    ghost reads_back = { λ env typed sound. env_read env sound };

    ghost dates = { env_dates };

    ghost within = { λ env sound. env_within env };
}

/// A table of an environment.
struct VariableRow;

impl TableForm for VariableRow {
    type Value = Variable;

    ghost value_in = { variable_in };

    fn read(alloc: Global, table: &Table) -> Result<Variable, DocFault> {
        let name = required_at::<Text>(alloc, table, "name")?;
        let value = required_at::<Text>(alloc, table, "value")?;
        Ok(Variable { name, value })
    }
}

impl WrittenTable for VariableRow {
    ghost members_of = { variable_members };

    ghost is_typed = { λ _. true };

    ghost is_sound = { λ _. true };

    ghost nesting = { 0 };

    fn write(alloc: Global, variable: &Variable) -> Result<Table, Memory> {
        let mut table = Table::new(alloc);
        put_at::<Text>(alloc, &mut table, "name", &variable.name)?;
        put_at::<Text>(alloc, &mut table, "value", &variable.value)?;
        Ok(table)
    }

    ghost reads_back = { λ variable typed sound. refl };

    ghost dates = { λ variable. refl };

    ghost within = { λ variable sound. zero_within 0 };
}

fn written_variables(alloc: Global, variables: &[Variable]) -> Result<Array, Memory>
    ensures { IfOk result (λ values. array_view values ≡ items_of (map (table_data variable_members) variables.now)) }
{
    let mut values = Array::new(alloc);
    for variable in variables {
        values.push(Value::Table(VariableRow::write(alloc, variable)?))?;
    }
    Ok(values)
}

fn has_name_bytes(name: &[u8]) -> bool
    ensures { result ≡ list_all is_name_byte name.now }
{
    name.iter().all(|byte| *byte != b'=' && *byte != 0)
}

fn has_no_zero(value: &[u8]) -> bool
    ensures { result ≡ list_all (λ byte. not (byte == 0)) value.now }
{
    value.iter().all(|byte| *byte != 0)
}

fn is_variable(variable: &Variable) -> bool
    ensures { result ≡ is_variable variable.now }
{
    !variable.name.as_str().is_empty()
        && has_name_bytes(variable.name.as_str().as_bytes())
        && has_no_zero(variable.value.as_str().as_bytes())
}

fn are_variables(variables: &[Variable]) -> bool
    ensures { result ≡ list_all is_variable variables.now }
{
    variables.iter().all(is_variable)
}

fn env_in(alloc: Global, variables: List<Variable>) -> Result<Env, DocFault>
    ensures { Answers result (env_in variables) }
{
    if !are_variables(variables.as_slice()) {
        return Err(DocFault::wrong(alloc));
    }
    match Env::from_ascending(alloc, variables) {
        Some(env) => Ok(env),
        None => Err(DocFault::wrong(alloc)),
    }
}

// What an image takes from its run image.
ghost use Rattle.std.specs.Prelude.{◌≡◌, ◌++◌, ◌∷◌, [], IfOk, OnOk, map};
ghost use Rattle.std.specs.Option.{option_copied};
ghost use Rattle.cnb_world.specs.Env.{with_value};
ghost use Rattle.image_files.specs.RunPart.{base_of, image_env, path_value, run_row, top_or};

use cnb_toml::ImageName;
use cnb_world::{Env, List, Memory, Path, PathFault, Text};
use image_docs::{Base, Role, Row, RunDoc, run_by};
use std::alloc::Global;
use tree_canon::Digest;

// The topmost row of a run image; this digest where it has none.
fn top_or(other: Digest, rows: &[Digest]) -> Digest
    ensures { result ≡ top_or other rows.now }
{
    let mut top = other;
    for digest in rows {
        top = *digest;
    }
    top
}

/// What an image notes of the run image that it stands on. Its topmost row is this digest where it has none.
pub fn base_of(alloc: Global, name: &ImageName, run: &RunDoc, other: Digest) -> Result<Base, Memory>
    ensures { IfOk result (λ base. base ≡ base_of name.now run.now other) }
{
    let name = name.copy(alloc)?;
    let os = run.os.copy(alloc)?;
    let arch = run.arch.copy(alloc)?;
    Ok(Base {
        name,
        top: top_or(other, run.rows.as_slice()),
        os,
        arch,
    })
}

fn root(alloc: Global) -> Result<Path, Memory>
    ensures { IfOk result (λ path. path ≡ 47 ∷ []) }
{
    match Path::parse(alloc, "/") {
        Ok(path) => Ok(path),
        Err(PathFault::Memory) => Err(Memory),
        Err(PathFault::NotPath) => unreachable!(),
    }
}

/// Adds the rows of the run image of this name, which are laid at `/`.
pub fn push_run_rows(
    alloc: Global,
    rows: &mut List<Row>,
    name: &ImageName,
    run: &[Digest],
) -> Result<(), Memory>
    ensures { OnOk result (rows.new ≡ rows.old ++ map (run_row name.now) run.now) }
{
    for digest in run {
        let place = root(alloc)?;
        let by = run_by(alloc, name)?;
        rows.push(Row {
            role: Role::Run,
            place,
            digest: *digest,
            by,
        })?;
    }
    Ok(())
}

// The image's own folders, and behind them what the run image has in this variable.
fn path_value(alloc: Global, old: Option<&Text>) -> Result<Text, Memory>
    ensures { IfOk result (λ value. value ≡ path_value (option_copied old.entry)) }
{
    let mut value = String::from_str(alloc, "/cnb/process:/cnb/lifecycle")?;
    if let Some(old) = old
        && !old.as_str().is_empty()
    {
        value.push_str(":")?;
        value.push_str(old.as_str())?;
    }
    Ok(Text::from_string(value))
}

fn set(alloc: Global, env: &mut Env, name: &str, value: Text) -> Result<(), Memory>
    ensures { OnOk result (env.new ≡ with_value name.now value env.old) }
{
    let name = Text::of(alloc, name)?;
    env.set(name, value)
}

/// The run image's environment, in which the application, the layers and the launcher are found (platform.md,
/// "exporter").
pub fn image_env(alloc: Global, run: &Env) -> Result<Env, Memory>
    ensures { IfOk result (λ env. env ≡ image_env run.now) }
{
    let mut env = run.copy()?;
    let path = path_value(alloc, run.get("PATH"))?;
    set(
        alloc,
        &mut env,
        "CNB_APP_DIR",
        Text::of(alloc, "/workspace")?,
    )?;
    set(
        alloc,
        &mut env,
        "CNB_LAYERS_DIR",
        Text::of(alloc, "/layers")?,
    )?;
    set(alloc, &mut env, "PATH", path)?;
    Ok(env)
}

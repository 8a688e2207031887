// Calls of cnb_env.
ghost use Rattle.std.specs.Prelude.{◌≡◌, ◌≤◌, IfOk, length};
ghost use Rattle.std.specs.List.{All};
ghost use Rattle.cnb_env.specs.Layers.{AreShort, IsShort};

use crate::buildpacks::{key, target};
use crate::files::{put_refusal, world};
use crate::given::path_given;
use cnb_env::{
    EnvFault, EnvFile, LayerSet, When, apply_file, base_env, build_env, buildpack_folder,
    env_folder, launch_env, layer_paths, plan_name, platform, set_path, set_target,
};
use cnb_toml::{Key, ProcType};
use cnb_world::{Bytes, Env, List, MemWorld, Memory, Path};
use row_files::{Answer, Row};

// The name and the value of a line `NAME=VALUE`.
fn variable<'a>(answer: &mut Answer, line: &'a str) -> (&'a str, &'a str) {
    match line.split_once('=') {
        Some(parts) => parts,
        None => {
            answer.wrong("no variable:", line);
            ("", "")
        }
    }
}

fn set(answer: &mut Answer, env: &mut Env, line: &str) {
    let (name, value) = variable(answer, line);
    let name = answer.text(name);
    let value = answer.text(value);
    answer.done(env.set(name, value));
}

// The variables of the row's `env`.
fn variables(answer: &mut Answer, row: &Row) -> Env {
    let mut env = Env::new(answer.alloc);
    for line in row.text_or_empty("env").lines() {
        set(answer, &mut env, line);
    }
    env
}

fn push_file(answer: &mut Answer, files: &mut List<EnvFile>, line: &str) {
    let (name, value) = variable(answer, line);
    let name = answer.text(name);
    let value = answer.text(value);
    answer.done(files.push(EnvFile { name, value }));
}

/// The environment files of the row's platform.
pub(crate) fn platform_env(answer: &mut Answer, row: &Row) -> List<EnvFile> {
    let mut files = List::new(answer.alloc);
    for line in row.text_or_empty("platform files").lines() {
        push_file(answer, &mut files, line);
    }
    files
}

fn put_env(answer: &mut Answer, env: &Env) {
    for variable in env.variables() {
        answer.put_all(&[variable.name.as_str(), "=", variable.value.as_str(), "\n"]);
    }
}

// Adds the environment, or behind why a call was refused what it left of it.
fn put_env_after(answer: &mut Answer, env: &Env, done: &Result<(), EnvFault>) {
    if let Err(fault) = done {
        put_refusal(answer, fault);
        answer.put("\n");
    }
    put_env(answer, env);
}

fn put_env_made(answer: &mut Answer, made: &Result<Env, EnvFault>) {
    match made {
        Ok(env) => put_env(answer, env),
        Err(fault) => put_refusal(answer, fault),
    }
}

/// A file of a layer in an environment.
pub(crate) fn apply(answer: &mut Answer, row: &Row) {
    let mut env = variables(answer, row);
    let (name, value) = (answer.given(row, "name"), answer.given(row, "value"));
    let delimiter = answer.given(row, "delimiter");
    answer.done(apply_file(answer.alloc, &mut env, name, value, delimiter));
    put_env(answer, &env);
}

/// A folder of files in an environment.
pub(crate) fn apply_folder(answer: &mut Answer, row: &Row) {
    let mut env = variables(answer, row);
    if let Some(mut world) = world(answer, row) {
        put_applied(answer, row, &mut world, &mut env);
    }
}

fn put_applied(answer: &mut Answer, row: &Row, world: &mut MemWorld, env: &mut Env) {
    if let Some(folder) = path_given(answer, row, "folder") {
        let done = env_folder(answer.alloc, world, env, &folder);
        put_env_after(answer, env, &done);
    }
}

// The layers between spaces.
fn layer_set(answer: &mut Answer, text: &str) -> Result<LayerSet, Memory>
    ensures { IfOk result AreShort }
{
    let mut layers = List::new(answer.alloc);
    for word in text.split_whitespace() {
        if let Some(path) = answer.path(word) {
            layers.push(path)?;
        }
    }
    Ok(layers)
}

// The layers of each buildpack on a line.
fn layer_sets(answer: &mut Answer, row: &Row) -> Result<List<LayerSet>, Memory>
    ensures { IfOk result (All AreShort) }
{
    let mut sets = List::new(answer.alloc);
    for line in row.text_or_empty("layers").lines() {
        sets.push(layer_set(answer, line)?)?;
    }
    Ok(sets)
}

/// The path folders of layers in an environment.
pub(crate) fn put_paths(answer: &mut Answer, row: &Row) {
    let when = match answer.given(row, "when") {
        "build" => When::Build,
        _ => When::Launch,
    };
    let mut env = variables(answer, row);
    put_paths_in(answer, row, &mut env, when);
}

fn put_paths_in(answer: &mut Answer, row: &Row, env: &mut Env, when: When) {
    let layers = answer.given(row, "layers");
    let Ok(layers) = layer_set(answer, layers) else {
        answer.run_out();
        return;
    };
    if let Some(mut world) = world(answer, row) {
        let done = layer_paths(answer.alloc, &mut world, env, &layers, when);
        put_env_after(answer, env, &done);
    }
}

/// The environment of a build, with the platform's files where the row has some.
pub(crate) fn make_build_env(answer: &mut Answer, row: &Row) {
    let env = variables(answer, row);
    let files = platform_env(answer, row);
    if let Some(mut world) = world(answer, row) {
        put_build_env(answer, row, &mut world, &env, &files);
    }
}

fn put_build_env(
    answer: &mut Answer,
    row: &Row,
    world: &mut MemWorld,
    env: &Env,
    files: &List<EnvFile>,
) {
    let Ok(sets) = layer_sets(answer, row) else {
        answer.run_out();
        return;
    };
    let files = if files.as_slice().is_empty() {
        None
    } else {
        Some(files)
    };
    put_env_made(answer, &build_env(answer.alloc, world, env, &sets, files));
}

/// The environment of a launch, of a process of a type where the row has one.
pub(crate) fn make_launch_env(answer: &mut Answer, row: &Row) {
    let env = variables(answer, row);
    if let Some(mut world) = world(answer, row) {
        put_launch_env(answer, row, &mut world, &env);
    }
}

fn put_launch_env(answer: &mut Answer, row: &Row, world: &mut MemWorld, env: &Env) {
    let Ok(sets) = layer_sets(answer, row) else {
        answer.run_out();
        return;
    };
    let kind = ProcType::parse(answer.alloc, row.text_or_empty("type")).ok();
    put_env_made(
        answer,
        &launch_env(answer.alloc, world, env, &sets, kind.as_ref()),
    );
}

/// Adds the platform's files, as they are read.
pub(crate) fn put_files(answer: &mut Answer, files: &Result<List<EnvFile>, EnvFault>) {
    match files {
        Ok(files) => put_each_file(answer, files.as_slice()),
        Err(fault) => put_refusal(answer, fault),
    }
}

fn put_each_file(answer: &mut Answer, files: &[EnvFile]) {
    answer.show(&files.len());
    answer.put(" files\n");
    for file in files {
        answer.put_all(&[file.name.as_str(), "="]);
        answer.debug(&file.value.as_str());
        answer.put("\n");
    }
}

/// The platform's files in an environment.
pub(crate) fn apply_platform(answer: &mut Answer, row: &Row) {
    let mut env = variables(answer, row);
    let files = platform_env(answer, row);
    answer.done(platform(answer.alloc, &mut env, &files));
    put_env(answer, &env);
}

/// What children's environments begin with.
pub(crate) fn begin(answer: &mut Answer, row: &Row) {
    let env = variables(answer, row);
    if let Some(base) = answer.made(base_env(answer.alloc, &env)) {
        put_env(answer, &base);
    }
}

/// A variable that is set to a path.
pub(crate) fn put_path(answer: &mut Answer, row: &Row) {
    let mut env = variables(answer, row);
    let name = answer.given(row, "name");
    if let Some(path) = path_given(answer, row, "path") {
        answer.done(set_path(answer.alloc, &mut env, name, &path));
    }
    put_env(answer, &env);
}

/// The variables of the image that a row builds for.
pub(crate) fn put_target(answer: &mut Answer, row: &Row) {
    let mut env = variables(answer, row);
    let target = target(answer, row);
    answer.done(set_target(answer.alloc, &mut env, target.as_ref()));
    put_env(answer, &env);
}

/// The folder of a buildpack, and the name of its plan.
pub(crate) fn places(answer: &mut Answer, row: &Row) {
    let text = answer.given(row, "buildpack");
    if let Some(key) = key(answer, text) {
        if let Some(folder) = path_given(answer, row, "folder") {
            put_places(answer, &folder, &key);
        }
    }
}

fn put_places(answer: &mut Answer, folder: &Path, key: &Key)
    requires { length folder.now ≤ 4096 }
{
    if let Some(folder) = answer.made(buildpack_folder(answer.alloc, folder, key)) {
        answer.put_all(&[folder.as_str(), "\n"]);
    }
    answer.put_made(plan_name(answer.alloc, key));
}

/// Adds the length of a file.
pub(crate) fn put_contents(answer: &mut Answer, contents: &Result<Option<Bytes>, EnvFault>) {
    match contents {
        Ok(Some(bytes)) => {
            answer.show(&bytes.as_slice().len());
            answer.put(" bytes");
        }
        Ok(None) => answer.put("no file"),
        Err(fault) => put_refusal(answer, fault),
    }
}

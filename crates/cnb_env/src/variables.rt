// The platform's environment files in an environment.
ghost use Rattle.std.specs.Prelude.{◌≡◌, IfOk, OnErr, OnOk};
ghost use Rattle.cnb_env.specs.Apply.{HasFirst};
ghost use Rattle.cnb_env.specs.Platform.{is_path_variable, value_of_file, with_file, with_files};

use crate::apply::{in_front, text_of};
use crate::files::EnvFile;
use cnb_world::{Env, List, Memory, Text};
use std::alloc::Global;

fn is_path_variable(name: &str) -> bool
    ensures { result ≡ is_path_variable name.now }
{
    name == "PATH"
        || name == "LD_LIBRARY_PATH"
        || name == "LIBRARY_PATH"
        || name == "CPATH"
        || name == "PKG_CONFIG_PATH"
}

// The value that a file gives its variable.
fn value_of_file(alloc: Global, env: &Env, file: &EnvFile) -> Result<Text, Memory>
    ensures { IfOk result (λ value. value ≡ value_of_file file.now env.now) }
{
    let name = file.name.as_str();
    if is_path_variable(name) {
        in_front(alloc, text_of(env, name), ":", file.value.as_str())
    } else {
        file.value.copy(alloc)
    }
}

fn apply_platform_file(alloc: Global, env: &mut Env, file: &EnvFile) -> Result<(), Memory>
    ensures applied { OnOk result (env.new ≡ with_file file.now env.old) }
    ensures refused { OnErr result (env.new ≡ env.old) }
{
    let value = value_of_file(alloc, env, file)?;
    let name = file.name.copy(alloc)?;
    env.set(name, value)?;
    Ok(())
}

/// Applies files in order: a path variable's file goes in front of the old value, any other replaces it.
#[tactic(auto, using(crate::proofs::Applied::one_more))]
pub fn platform(alloc: Global, env: &mut Env, files: &List<EnvFile>) -> Result<(), Memory>
    ensures applied { OnOk result (env.new ≡ with_files files.now env.old) }
    ensures refused { OnErr result (HasFirst with_file files.now env.old env.new) }
{
    for file in files.as_slice() {
        apply_platform_file(alloc, env, file)?;
    }
    Ok(())
}

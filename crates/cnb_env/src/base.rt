// The environment that buildpacks' children begin with.
ghost use Rattle.std.specs.Prelude.{◌≡◌, IfOk, OnErr, OnOk};
ghost use Rattle.std.specs.Option.{option_copied};
ghost use Rattle.cnb_world.specs.Env.{with_value};
ghost use Rattle.cnb_env.specs.Base.{HasBegun, base_env, with_target};

use cnb_toml::Target;
use cnb_world::{Env, Memory, Path, Text};
use std::alloc::Global;

/// The variables that were handed in, without the lifecycle's own (platform.md, "Environment").
pub fn base_env(alloc: Global, env: &Env) -> Result<Env, Memory>
    ensures { IfOk result (λ base. base ≡ base_env env.now) }
{
    let mut base = Env::new(alloc);
    for place in 0..env.len() {
        let name = env.name(place);
        if !name.as_str().as_bytes().starts_with(b"CNB_") {
            let value = env.value(place).copy(alloc)?;
            base.set(name.copy(alloc)?, value)?;
        }
    }
    Ok(base)
}

/// Sets a variable to a path.
pub fn set_path(alloc: Global, env: &mut Env, name: &str, path: &Path) -> Result<(), Memory>
    ensures set { OnOk result (env.new ≡ with_value name.now path.now env.old) }
    ensures refused { OnErr result (env.new ≡ env.old) }
{
    let name = Text::of(alloc, name)?;
    let value = Text::of(alloc, path.as_str())?;
    env.set(name, value)
}

fn set_text(alloc: Global, env: &mut Env, name: &str, value: &Text) -> Result<(), Memory>
    ensures set { OnOk result (env.new ≡ with_value name.now value.now env.old) }
    ensures refused { OnErr result (env.new ≡ env.old) }
{
    let name = Text::of(alloc, name)?;
    let value = value.copy(alloc)?;
    env.set(name, value)
}

/// Sets the two variables of the image that is built for, where it is known: `CNB_TARGET_OS` and `CNB_TARGET_ARCH`
/// (platform.md, "Targets").
pub fn set_target(alloc: Global, env: &mut Env, target: Option<&Target>) -> Result<(), Memory>
    ensures set { OnOk result (env.new ≡ with_target (option_copied target.entry) env.old) }
    ensures refused { OnErr result (HasBegun (option_copied target.entry) env.old env.new) }
{
    if let Some(target) = target {
        set_text(alloc, env, "CNB_TARGET_OS", &target.os)?;
        set_text(alloc, env, "CNB_TARGET_ARCH", &target.arch)?;
    }
    Ok(())
}

// The detect child of a buildpack.
ghost use Rattle.std.specs.Prelude.{◌≡◌, ◌≤◌, IfOk, IsTrue, codes, length};
ghost use Rattle.cnb_world.specs.Path.{joined};
ghost use Rattle.detect_core.specs.Job.{build_plan_path, detect_job};
ghost use Rattle.detect_core.specs.Search.{is_short};

use crate::chosen::DetectFrame;
use crate::environment::environment;
use cnb_env::{buildpack_folder, plan_name};
use cnb_toml::Key;
use cnb_world::{DetectJob, Memory, Path, Text};
use order_expand::Member;
use std::alloc::Global;

/// The detect child of a member (buildpack.md, "Detection").
#[tactic(auto, using(crate::proofs::PathLemmas::short_folders))]
pub fn job_of(alloc: Global, frame: &DetectFrame, member: &Member) -> Result<DetectJob, Memory>
    requires { IsTrue (is_short frame.now) }
    ensures { IfOk result (λ job. job ≡ detect_job frame.now member.now) }
{
    let folder = buildpack_folder(alloc, &frame.buildpacks, &member.key)?;
    let program = program(alloc, &folder)?;
    let plan = plan(alloc, &frame.work, &member.key)?;
    let env = environment(alloc, frame, member, &folder, &plan)?;
    let id = Text::of(alloc, member.key.id.as_str())?;
    let version = Text::of(alloc, member.key.version.as_str())?;
    let platform = frame.platform.copy(alloc)?;
    let dir = frame.app.copy(alloc)?;
    Ok(DetectJob {
        id,
        version,
        program,
        platform,
        plan,
        env,
        dir,
    })
}

fn program(alloc: Global, folder: &Path) -> Result<Path, Memory>
    requires { length folder.now ≤ 8192 }
    ensures { IfOk result (λ program. program ≡ joined (joined folder.now (codes "bin")) (codes "detect")) }
{
    let bin = folder.below(alloc, "bin")?;
    bin.below(alloc, "detect")
}

// Where the child of a buildpack writes a Build Plan.
fn plan(alloc: Global, work: &Path, key: &Key) -> Result<Path, Memory>
    requires { length work.now ≤ 4096 }
    ensures { IfOk result (λ plan. plan ≡ build_plan_path work.now key.now) }
{
    let name = plan_name(alloc, key)?;
    let folder = work.below(alloc, "detect")?;
    folder.below(alloc, name.as_str())
}

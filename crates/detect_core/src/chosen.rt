// What a detection is asked and answers.
use bp_docs::PlanOption;
use cnb_env::EnvFile;
use cnb_toml::{Key, Target};
use cnb_world::{Env, List, Memory, Path, Probed};
use run_docs::{GroupDoc, PlanDoc};
use ticket_pool::PoolFault;

/// What all detect children of one call have in common: the folders, the environment that was handed in, the platform's
/// environment files, and the image that is built for, where it is known.
#[derive(Drop)]
pub struct DetectFrame {
    pub buildpacks: Path,
    pub app: Path,
    pub platform: Path,
    pub work: Path,
    pub env: Env,
    pub files: List<EnvFile>,
    pub target: Option<Target>,
}

/// What a detect child's end says (buildpack.md, "Detection").
#[derive(Drop)]
pub enum Verdict {
    Pass(List<PlanOption>),
    Fail,
    Error,
}

/// The choice: the group and its plan, the group's place among the listed groups, the number of the passing trial
/// and of all trials of that group, and the buildpacks that were asked, in order.
#[derive(Drop)]
pub struct Chosen {
    pub group: GroupDoc,
    pub plan: PlanDoc,
    pub place: u32,
    pub trial: u32,
    pub trials: u32,
    pub asked: List<Key>,
}

/// What a buildpack's child answered.
#[derive(Drop)]
pub struct AnswerRow {
    pub key: Key,
    pub probed: Probed,
}

/// The choice, with the answers of the buildpacks that were asked, in the order of asking.
#[derive(Drop)]
pub struct Recorded {
    pub chosen: Chosen,
    pub answers: List<AnswerRow>,
}

/// Why no group was chosen.
#[derive(Drop)]
pub enum DetectEnd {
    NoGroup { erred: bool },
    ManyTrials,
    Child,
    Memory,
}

impl From<Memory> for DetectEnd {
    ghost use Rattle.std.specs.Prelude.{◌≡◌};
    ghost use Rattle.detect_core.specs.declared.chosen.DetectEnd.TheVariants.{Memory};

    ghost from_gives = { λ _ end. end ≡ Memory };

    fn from(_: Memory) -> Self {
        DetectEnd::Memory
    }
}

impl From<PoolFault> for DetectEnd {
    ghost use Rattle.std.specs.Prelude.{◌≡◌};
    ghost use Rattle.detect_core.specs.Searching.{end_of_fault};

    ghost from_gives = { λ fault end. end ≡ end_of_fault fault };

    fn from(fault: PoolFault) -> Self {
        match fault {
            PoolFault::Child => DetectEnd::Child,
            PoolFault::Memory => DetectEnd::Memory,
        }
    }
}

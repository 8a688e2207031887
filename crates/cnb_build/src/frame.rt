// What builds are given, and what they come to.
use cnb_env::{EnvFile, LayerSet};
use cnb_toml::Target;
use cnb_world::{Env, List, Path};
use run_docs::PlanDoc;

/// What all builds of one call have in common: the folders, the environment that was handed in, the platform's
/// environment files, and the target of the run image, where it is known.
#[derive(Drop)]
pub struct BuildFrame {
    pub buildpacks: Path,
    pub app: Path,
    pub platform: Path,
    pub layers: Path,
    pub work: Path,
    pub env: Env,
    pub files: List<EnvFile>,
    pub target: Option<Target>,
}

/// What the builds so far came to: the entries of the plan that are pending, and of each buildpack the layers that are
/// there for later builds.
#[derive(Drop)]
pub struct Built {
    pub pending: PlanDoc,
    pub done: List<LayerSet>,
}

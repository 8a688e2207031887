// Alternatives and trials.
use bp_docs::PlanOption;
use cnb_toml::{Key, Need};
use cnb_world::{List, Text};
use run_docs::PlanDoc;

/// One buildpack in a trial: what the alternative that was chosen for it provides and requires.
#[derive(Drop)]
pub struct TrialRow {
    pub optional: bool,
    pub provides: List<Text>,
    pub needs: List<Need>,
}

/// A choice of one alternative for each buildpack, in group order.
pub type Trial = List<TrialRow>;

/// A buildpack that passed, with its alternatives, of which there is at least one.
#[derive(Drop)]
pub struct AliveRow {
    pub key: Key,
    pub optional: bool,
    pub options: List<PlanOption>,
}

/// The buildpacks of a group that passed, in order.
pub type Alive = List<AliveRow>;

/// The first trial that passes: its number from 0, how many trials there are, the places that remain, and the plan.
#[derive(Drop)]
pub struct Resolved {
    pub trial: u32,
    pub trials: u32,
    pub kept: List<u32>,
    pub plan: PlanDoc,
}

// The children of a group that are to run.
ghost use Rattle.std.specs.Prelude.{◌≡◌, ◌++◌, ◌∷◌, [], IfOk, IsTrue, OnOk, map};
ghost use Rattle.std.specs.List.{filter, list_any};
ghost use Rattle.cnb_toml.specs.Keys.{same_key};
ghost use Rattle.detect_core.specs.Answer.{is_fit};
ghost use Rattle.detect_core.specs.Asking.{unmet};
ghost use Rattle.detect_core.specs.Job.{detect_job};
ghost use Rattle.detect_core.specs.Kept.{keys_of};
ghost use Rattle.detect_core.specs.Search.{is_short};

use crate::chosen::DetectFrame;
use crate::fitting::is_fit;
use crate::job::job_of;
use crate::kept::Kept;
use cnb_toml::Key;
use cnb_world::{DetectJob, List, Memory};
use order_expand::Member;
use std::alloc::Global;

/// The children that are to run for a group: the buildpack and the job of each.
#[derive(Drop)]
pub struct Questions {
    pub keys: List<Key>,
    pub jobs: List<DetectJob>,
}

/// The children of those members that are for the target and were not asked before in this call, each buildpack once.
pub fn questions_of(
    alloc: Global,
    frame: &DetectFrame,
    group: &[Member],
    kept: &Kept,
) -> Result<Questions, Memory>
    requires { IsTrue (is_short frame.now) }
    ensures keys { IfOk result (λ asked. asked.keys ≡ map (λ member. member.key) (unmet (keys_of kept.now)
        (filter (is_fit frame.now.target) group.now))) }
    ensures jobs { IfOk result (λ asked. asked.jobs ≡ map (detect_job frame.now) (unmet (keys_of kept.now)
        (filter (is_fit frame.now.target) group.now))) }
{
    let mut asked = Questions {
        keys: List::new(alloc),
        jobs: List::new(alloc),
    };
    for member in group {
        add_fitting(alloc, &mut asked, frame, member, kept)?;
    }
    Ok(asked)
}

// Adds the child of a member that is for the target, unless its buildpack was met before.
fn add_fitting(
    alloc: Global,
    asked: &mut Questions,
    frame: &DetectFrame,
    member: &Member,
    kept: &Kept,
) -> Result<(), Memory>
    requires { IsTrue (is_short frame.now) }
    ensures keys { OnOk result (asked.new.keys ≡ asked.old.keys ++ map (λ m. m.key)
        (unmet (keys_of kept.now ++ asked.old.keys) (filter (is_fit frame.now.target) (member.now ∷ [])))) }
    ensures jobs { OnOk result (asked.new.jobs ≡ asked.old.jobs ++ map (detect_job frame.now)
        (unmet (keys_of kept.now ++ asked.old.keys) (filter (is_fit frame.now.target) (member.now ∷ [])))) }
{
    if !is_fit(&frame.target, member) {
        return Ok(());
    }
    add(alloc, asked, frame, member, kept)
}

// Adds the child of a member, unless its buildpack was met before.
fn add(
    alloc: Global,
    asked: &mut Questions,
    frame: &DetectFrame,
    member: &Member,
    kept: &Kept,
) -> Result<(), Memory>
    requires { IsTrue (is_short frame.now) }
    ensures keys { OnOk result (asked.new.keys ≡ asked.old.keys
        ++ map (λ m. m.key) (unmet (keys_of kept.now ++ asked.old.keys) (member.now ∷ []))) }
    ensures jobs { OnOk result (asked.new.jobs ≡ asked.old.jobs
        ++ map (detect_job frame.now) (unmet (keys_of kept.now ++ asked.old.keys) (member.now ∷ []))) }
{
    if was_met(kept, asked.keys.as_slice(), &member.key) {
        return Ok(());
    }
    asked.keys.push(member.key.copy(alloc)?)?;
    asked.jobs.push(job_of(alloc, frame, member)?)?;
    Ok(())
}

// Whether a buildpack has an answer or is among these.
fn was_met(kept: &Kept, keys: &[Key], key: &Key) -> bool
    ensures { result ≡ list_any (same_key key.now) (keys_of kept.now ++ keys.now) }
{
    kept.has(key) || is_among(keys, key)
}

fn is_among(keys: &[Key], key: &Key) -> bool
    ensures { result ≡ list_any (same_key key.now) keys.now }
{
    keys.iter().any(|other| *key == *other)
}

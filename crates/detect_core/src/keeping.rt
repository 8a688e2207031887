// Keeping what children answered.
ghost use Rattle.std.specs.Prelude.{◌≡◌, ◌++◌, [], IfOk, OnOk, length, map};
ghost use Rattle.detect_core.specs.Asking.{rows_of, AreNew};
ghost use Rattle.detect_core.specs.Kept.{keys_of};
ghost use Rattle.detect_core.specs.Recorded.{answer_rows, answered_keys, kept_row};

use crate::answers::answer;
use crate::chosen::AnswerRow;
use crate::kept::Kept;
use cnb_toml::Key;
use cnb_world::{List, Memory, Probed};
use std::alloc::Global;

/// Keeps what the children of these buildpacks said, which were not asked before.
pub fn keep_answers(
    alloc: Global,
    kept: &mut Kept,
    keys: &[Key],
    answers: &[Probed],
) -> Result<(), Memory>
    requires new { AreNew (keys_of kept.old) keys.now }
    requires each { length answers.now ≡ length keys.now }
    ensures { OnOk result (kept.new ≡ kept.old ++ rows_of keys.now answers.now) }
{
    for (place, probed) in answers.iter().enumerate() {
        let key = keys[place].copy(alloc)?;
        let verdict = answer(alloc, probed)?;
        kept.add(key, verdict)?;
    }
    Ok(())
}

/// Adds what the children of these buildpacks answered. The answers are moved, not copied.
pub fn add_answers(
    alloc: Global,
    rows: &mut List<AnswerRow>,
    keys: &[Key],
    answers: Vec<Probed>,
) -> Result<(), Memory>
    requires { length answers.items ≡ length keys.now }
    ensures { OnOk result (rows.new ≡ rows.old ++ answer_rows keys.now answers.items) }
{
    let mut place = 0;
    for probed in answers {
        let key = keys[place].copy(alloc)?;
        rows.push(AnswerRow { key, probed })?;
        place += 1;
    }
    Ok(())
}

/// What the children of answered buildpacks said, of which none is answered twice.
pub fn kept_of(alloc: Global, rows: &[AnswerRow]) -> Result<Kept, Memory>
    requires { AreNew [] (answered_keys rows.now) }
    ensures { IfOk result (λ kept. kept ≡ map kept_row rows.now) }
{
    let mut kept = Kept::new(alloc);
    for row in rows {
        let key = row.key.copy(alloc)?;
        let verdict = answer(alloc, &row.probed)?;
        kept.add(key, verdict)?;
    }
    Ok(kept)
}

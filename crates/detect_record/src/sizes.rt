// What the types of answers say of them, and whether their names can be numbered.
ghost use Rattle.std.specs.Prelude.{◌≡◌, true};
ghost use Rattle.std.specs.List.{All, list_all};
ghost use Rattle.hex.specs.Hex.{IsBytes};
ghost use Rattle.cnb_toml.specs.Names.{is_bp_id, is_bp_version};
ghost use Rattle.detect_core.specs.Kept.{options_of, verdict_for};
ghost use Rattle.detect_record.specs.LineLaws.{IsSoundAnswer, IsSoundCode};
ghost use Rattle.detect_record.specs.Sizes.{are_numbered, has_few_names, have_few_names};

use bp_docs::PlanOption;
use cnb_toml::{BpId, BpVersion, Key};
use cnb_world::{List, Probed};
use detect_core::{AnswerRow, Kept};

const MAX_NAMES: usize = 4_294_967_295;

fn see_id(id: &BpId)
    ensures { is_bp_id id.now ≡ true }
{
    let _text = id.as_str();
}

fn see_version(version: &BpVersion)
    ensures { is_bp_version version.now ≡ true }
{
    let _text = version.as_str();
}

fn see_code(code: Option<i32>)
    ensures { IsSoundCode code }
{
    if let Some(number) = code {
        let _number = number;
    }
}

fn see_bytes(bytes: &[u8])
    ensures { IsBytes bytes.now }
{
    let _bytes = bytes;
}

// A line can be written of each answer.
fn see_answer(row: &AnswerRow)
    ensures { IsSoundAnswer row.now.key row.now.probed }
{
    see_id(&row.key.id);
    see_version(&row.key.version);
    see_code(row.probed.code);
    see_bytes(row.probed.plan.as_slice());
}

/// A line can be written of each answer.
pub(crate) fn see_answers(rows: &[AnswerRow])
    ensures { All (λ row. IsSoundAnswer row.key row.probed) rows.now }
{
    for row in rows {
        see_answer(row);
    }
}

fn has_few_names(option: &PlanOption) -> bool
    ensures { result ≡ has_few_names option.now }
{
    option.provides.as_slice().len() <= MAX_NAMES && option.needs.as_slice().len() <= MAX_NAMES
}

fn have_few_names(options: &List<PlanOption>) -> bool
    ensures { result ≡ list_all has_few_names options.now }
{
    options.as_slice().iter().all(has_few_names)
}

fn row_is_numbered(kept: &Kept, row: &AnswerRow) -> bool
    ensures { result ≡ have_few_names (options_of (verdict_for kept.now row.now.key)) }
{
    match kept.options(&row.key) {
        Some(options) => have_few_names(options),
        None => true,
    }
}

/// Whether 32 bits number the names of each alternative that a buildpack answered.
pub(crate) fn are_numbered(kept: &Kept, rows: &[AnswerRow]) -> bool
    ensures { result ≡ are_numbered kept.now rows.now }
{
    rows.iter().all(|row| row_is_numbered(kept, row))
}

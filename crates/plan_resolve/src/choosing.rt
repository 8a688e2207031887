// The trials of a group by their numbers.
ghost use Rattle.std.specs.Prelude.{◌≡◌, ◌<◌, ◌^◌, IsTrue, IfOk, IfSome, IfNone, OnOk, Some, None, length, slice_get};
ghost use Rattle.std.specs.Prelude.{nat_lt, if◌then◌else◌};
ghost use Rattle.std.specs.List.{list_all};
ghost use Rattle.plan_resolve.specs.Choices.{choices_of, choice_count};
ghost use Rattle.plan_resolve.specs.Prefixes.{AllFail};
ghost use Rattle.plan_resolve.specs.Resolution.{has_options};

use crate::borrowed::BorrowedRow;
use crate::prefix::Prefix;
use crate::rows::AliveRow;
use cnb_world::Memory;

/// How many trials are tried at most.
const MOST_TRIALS: usize = 65_536;

/// How many trials there are, or none where there are too many.
pub fn trial_count(rows: &[AliveRow]) -> Option<u32>
    requires { IsTrue (list_all has_options rows.now) }
    ensures { result ≡ (if nat_lt 65536 (choice_count rows.now) then None else Some (choice_count rows.now)) }
{
    let mut count: usize = 1;
    for row in rows {
        match count.checked_mul(row.options.as_slice().len()) {
            Some(product) if product <= MOST_TRIALS => count = product,
            _ => return None,
        }
    }
    Some(count as u32)
}

/// Chooses the rows of the trial of a number, one after another. Where those so far are dead, it stops, and answers how
/// many trials from that number on begin with them.
pub fn choose<'a>(
    rows: &'a [AliveRow],
    trials: u32,
    number: u32,
    prefix: &mut Prefix<'a>,
) -> Result<Option<u32>, Memory>
    requires len { length rows.now < 2 ^ 32 }
    requires count { trials ≡ choice_count rows.now }
    requires within { number < trials }
    ensures trial { IfOk result (λ o. IfNone o (slice_get (choices_of rows.now) number ≡ Some prefix.new.rows.items)) }
    ensures len { IfOk result (λ o. IfNone o (length prefix.new.rows.items ≡ length rows.now)) }
    ensures dead { IfOk result (λ o. IfSome o (AllFail rows.now number)) }
{
    prefix.clear();
    let mut later = trials;
    let mut number = number;
    for row in rows {
        let options = row.options.as_slice();
        later /= options.len() as u32;
        let is_dead = prefix.push(BorrowedRow::chosen(row, &options[(number / later) as usize]))?;
        number %= later;
        if is_dead {
            return Ok(Some(later - number));
        }
    }
    Ok(None)
}

/// The rows of the trial of a number, counted from 0, in place of what `out` had. After want of memory `out` has some of
/// them.
pub fn chosen_trial<'a>(
    rows: &'a [AliveRow],
    trials: u32,
    number: u32,
    out: &mut Vec<BorrowedRow<'a>>,
) -> Result<(), Memory>
    requires count { trials ≡ choice_count rows.now }
    requires within { number < trials }
    ensures trial { OnOk result (slice_get (choices_of rows.now) number ≡ Some out.new.items) }
    ensures len { OnOk result (length out.new.items ≡ length rows.now) }
{
    out.clear();
    let mut later = trials;
    let mut left = number;
    for row in rows {
        let options = row.options.as_slice();
        later /= options.len() as u32;
        out.push(BorrowedRow::chosen(row, &options[(left / later) as usize]))?;
        left %= later;
    }
    Ok(())
}

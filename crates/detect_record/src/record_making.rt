// The record of a detection.
ghost use Rattle.std.specs.Prelude.{◌≡◌, true, IfOk, IsOk, IsTrue, Ok, OnOk};
ghost use Rattle.steps.specs.Causes.{IsAnswer};
ghost use Rattle.cnb_env.specs.Base.{is_named_target};
ghost use Rattle.order_expand.specs.Check.{checked};
ghost use Rattle.order_expand.specs.Groups.{listed_groups};
ghost use Rattle.detect_core.specs.Kept.{kept_says};
ghost use Rattle.detect_core.specs.Recorded.{IsRecorded};
ghost use Rattle.detect_record.specs.Checking.{check_of};
ghost use Rattle.detect_record.specs.Making.{checked_of, fault_cause, record_of, within_limit};
ghost use Rattle.detect_record.specs.RecordText.{IsPutBehind};
ghost use Rattle.detect_record.specs.RecordTexts.{answers_whole, record_whole, targeted_whole};
ghost use Rattle.detect_record.specs.Sizes.{are_numbered};

use crate::making::{put_answers, put_head, put_target};
use crate::making_groups::put_groups;
use crate::outcome::RecordFault;
use crate::record_text::RecordText;
use crate::sizes::{are_numbered, see_answers};
use bp_docs::Order;
use cnb_toml::Target;
use cnb_world::Bytes;
use detect_core::{Kept, Recorded, kept_of};
use order_expand::{Catalog, Walk};
use std::alloc::Global;

fn put_answered(
    alloc: Global,
    walk: &mut Walk,
    target: &Option<Target>,
    kept: &Kept,
    found: &Recorded,
    text: &mut RecordText,
) -> Result<(), RecordFault>
    ensures { IsPutBehind text.old
        (answers_whole (kept_says target.now kept.now) found.now walk.old) text.new result }
{
    match put_answers(alloc, found.answers.as_slice(), text) {
        Ok(()) => {
            let chosen = &found.chosen;
            put_groups(alloc, walk, target, kept, chosen.place, chosen.trial, text)
        }
        Err(fault) => Err(fault),
    }
}

fn put_targeted(
    alloc: Global,
    walk: &mut Walk,
    target: &Option<Target>,
    kept: &Kept,
    found: &Recorded,
    text: &mut RecordText,
) -> Result<(), RecordFault>
    ensures { IsPutBehind text.old
        (targeted_whole (kept_says target.now kept.now) target.now found.now walk.old) text.new result }
{
    match put_target(alloc, target, text) {
        Ok(()) => put_answered(alloc, walk, target, kept, found, text),
        Err(fault) => Err(fault),
    }
}

fn put_record(
    alloc: Global,
    walk: &mut Walk,
    target: &Option<Target>,
    kept: &Kept,
    found: &Recorded,
    text: &mut RecordText,
) -> Result<(), RecordFault>
    ensures { IsPutBehind text.old
        (record_whole (kept_says target.now kept.now) target.now found.now walk.old) text.new result }
{
    match put_head(alloc, text) {
        Ok(()) => put_targeted(alloc, walk, target, kept, found, text),
        Err(fault) => Err(fault),
    }
}

fn write_record(
    alloc: Global,
    walk: &mut Walk,
    target: &Option<Target>,
    kept: &Kept,
    found: &Recorded,
) -> Result<Bytes, RecordFault>
    ensures { IsAnswer fault_cause result
        (within_limit (record_whole (kept_says target.now kept.now) target.now found.now walk.old)) }
{
    let mut text = RecordText::new(alloc);
    match put_record(alloc, walk, target, kept, found, &mut text) {
        Ok(()) => Ok(text.into_bytes()),
        Err(fault) => Err(fault),
    }
}

// Writes the record, unless its answers have more names than can be numbered, which fit into no memory.
fn record_by(
    alloc: Global,
    order: &Order,
    catalog: &Catalog,
    target: &Option<Target>,
    kept: &Kept,
    found: &Recorded,
) -> Result<Bytes, RecordFault>
    requires { IsOk (checked catalog.now order.now) }
    ensures record { IsAnswer fault_cause result
        (within_limit (record_whole (kept_says target.now kept.now) target.now found.now
        (listed_groups catalog.now order.now))) }
    ensures few { OnOk result (are_numbered kept.now found.now.answers ≡ true) }
{
    if !are_numbered(kept, found.answers.as_slice()) {
        return Err(RecordFault::Memory);
    }
    let mut walk = Walk::new(alloc, order, catalog)?;
    write_record(alloc, &mut walk, target, kept, found)
}

/// The record of a detection: why each earlier group and trial was passed over, by the answers that were found. A record
/// of more than 16,777,216 bytes is not made. Read again, the record gives the choice.
pub fn make_record(
    alloc: Global,
    order: &Order,
    catalog: &Catalog,
    target: &Option<Target>,
    found: &Recorded,
) -> Result<Bytes, RecordFault>
    requires order { IsOk (checked catalog.now order.now) }
    requires target { IsTrue (is_named_target target.now) }
    requires recorded { IsRecorded order.now catalog.now target.now found.now }
    ensures record { IsAnswer fault_cause result (record_of catalog.now order.now target.now found.now) }
    ensures proves { IfOk result (λ bytes. check_of catalog.now order.now bytes ≡ Ok (checked_of found.now)) }
{
    see_answers(found.answers.as_slice());
    let kept = kept_of(alloc, found.answers.as_slice())?;
    record_by(alloc, order, catalog, target, &kept, found)
}

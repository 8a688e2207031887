// Checking a record.
ghost use Rattle.std.specs.Prelude.{◌≡◌, ◌≤◌, [], List as Seq, IfOk, IsOk, length};
ghost use Rattle.steps.specs.Causes.{IsAnswer};
ghost use Rattle.order_expand.specs.Check.{checked};
ghost use Rattle.order_expand.specs.Groups.{listed_groups};
ghost use Rattle.order_expand.specs.declared.member.Member.{Member};
ghost use Rattle.detect_core.specs.Detection.{asked_keys, first_trial};
ghost use Rattle.detect_core.specs.Kept.{keys_of, kept_says};
ghost use Rattle.detect_record.specs.CheckLaws.{IsFirst};
ghost use Rattle.detect_record.specs.Checking.{Answering, Untargeted, Untitled, answers_in, cause_of, check_of};
ghost use Rattle.detect_record.specs.Checking.{target_in};
ghost use Rattle.detect_record.specs.Following.{GoesOn, checks, is_head, known_by, reads, target_line};
ghost use Rattle.detect_record.specs.Record.{AtGroup};

use crate::answers::read_answers;
use crate::following::refused;
use crate::groups::check_groups;
use crate::lines::Lines;
use crate::outcome::{CheckFault, Checked};
use crate::parts::Line;
use bp_docs::Order;
use cnb_toml::Target;
use detect_core::Kept;
use order_expand::{Catalog, Walk};
use std::alloc::Global;

fn is_head(line: &Line) -> bool
    ensures { result ≡ is_head line.now }
{
    match line {
        Line::Head => true,
        _ => false,
    }
}

fn read_head(alloc: Global, lines: &mut Lines) -> Result<(), CheckFault>
    ensures { (groups : Seq (Seq Member))
        → GoesOn result (reads groups Untitled lines.old) (λ _. reads groups Untargeted lines.new) }
{
    let line = lines.next(alloc)?;
    if !is_head(&line) {
        return Err(refused(lines));
    }
    Ok(())
}

fn target_line(line: Line) -> Option<Option<Target>>
    ensures { result ≡ target_line line }
{
    match line {
        Line::Target(target) => Some(target),
        _ => None,
    }
}

fn read_target(alloc: Global, lines: &mut Lines) -> Result<Option<Target>, CheckFault>
    ensures { (groups : Seq (Seq Member))
        → GoesOn result (reads groups Untargeted lines.old) (λ target. reads groups (Answering target []) lines.new) }
{
    let line = lines.next(alloc)?;
    match target_line(line) {
        Some(target) => Ok(target),
        None => Err(refused(lines)),
    }
}

/// Whether a record proves a choice, and which: the first trial that passes by its target and its answers, for an order
/// and a catalog. Its lines are followed one by one, and nothing is searched. `bytes` has at most 16,777,216 bytes.
pub fn check_record(
    alloc: Global,
    order: &Order,
    catalog: &Catalog,
    bytes: &[u8],
) -> Result<Checked, CheckFault>
    requires order { IsOk (checked catalog.now order.now) }
    requires few { length bytes.now ≤ 16777216 }
    // What the record proves, exactly where each line meets its rule; otherwise the first line that doesn't.
    ensures check { IsAnswer cause_of result (check_of catalog.now order.now bytes.now) }
    // By the record's target and answers, what is given is the first trial that passes.
    ensures first { IfOk result (λ checked. IsFirst checked
        (first_trial (kept_says (target_in bytes.now) (answers_in bytes.now)) catalog.now order.now)) }
    // Exactly the buildpacks that have to be asked by these answers are answered, in order.
    ensures asked { IfOk result (λ _. keys_of (answers_in bytes.now)
        ≡ asked_keys (target_in bytes.now) (kept_says (target_in bytes.now) (answers_in bytes.now))
        catalog.now order.now) }
{
    check_lines(alloc, order, catalog, Lines::new(bytes))
}

fn check_lines(
    alloc: Global,
    order: &Order,
    catalog: &Catalog,
    mut lines: Lines,
) -> Result<Checked, CheckFault>
    requires { IsOk (checked catalog.now order.now) }
    ensures { IsAnswer cause_of result (reads (listed_groups catalog.now order.now) Untitled lines.entry) }
{
    read_head(alloc, &mut lines)?;
    let target = read_target(alloc, &mut lines)?;
    check_answers(alloc, order, catalog, &target, &mut lines)
}

fn check_answers(
    alloc: Global,
    order: &Order,
    catalog: &Catalog,
    target: &Option<Target>,
    lines: &mut Lines,
) -> Result<Checked, CheckFault>
    requires { IsOk (checked catalog.now order.now) }
    ensures { IsAnswer cause_of result
        (reads (listed_groups catalog.now order.now) (Answering target.now []) lines.old) }
{
    let mut kept = Kept::new(alloc);
    read_answers(alloc, lines, &mut kept)?;
    check_listed(alloc, order, catalog, target, &kept, lines)
}

fn check_listed(
    alloc: Global,
    order: &Order,
    catalog: &Catalog,
    target: &Option<Target>,
    kept: &Kept,
    lines: &mut Lines,
) -> Result<Checked, CheckFault>
    requires { IsOk (checked catalog.now order.now) }
    ensures { IsAnswer cause_of result (checks (known_by target.now kept.now (listed_groups catalog.now order.now))
        (AtGroup 0 (listed_groups catalog.now order.now)) lines.old) }
{
    let mut walk = Walk::new(alloc, order, catalog)?;
    check_groups(alloc, &mut walk, target, kept, lines)
}

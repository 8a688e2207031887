// A line of a record, read.
ghost use Rattle.std.specs.Prelude.{◌≡◌, ◌<◌, ◌∷◌, IfErr, IfOk, Some, length};
ghost use Rattle.std.specs.Option.{option_map};
ghost use Rattle.cnb_toml.specs.Names.{is_bp_id, is_bp_version, is_target_name};
ghost use Rattle.detect_record.specs.Forms.{number_in};
ghost use Rattle.detect_record.specs.Lines.{answer_from, bare_line, group_line, head_from, key_from, line_in, lines_in};
ghost use Rattle.detect_record.specs.Lines.{named, named_line, no_target, probed_from, target_from, target_of_names};
ghost use Rattle.detect_record.specs.LinesLeft.{IsRefused};
ghost use Rattle.detect_record.specs.Reading.{IsReadAs};

use crate::forms::{code_in, cut, number_in, plan_in, steps_in};
use crate::line_fault::LineFault;
use crate::parts::{GroupLine, Line};
use cnb_toml::{BpId, BpVersion, Key, NameFault, Target, is_target_name};
use cnb_world::{List, Probed, Text};
use std::alloc::Global;

fn id_from(alloc: Global, text: &[u8]) -> Result<BpId, LineFault>
    ensures { IsReadAs result (named is_bp_id text.now) }
{
    let Ok(text) = str::from_utf8(text) else {
        return Err(LineFault::Bad);
    };
    match BpId::parse(alloc, text) {
        Ok(id) => Ok(id),
        Err(NameFault::Bad) => Err(LineFault::Bad),
        Err(NameFault::Memory) => Err(LineFault::Memory),
    }
}

fn version_from(alloc: Global, text: &[u8]) -> Result<BpVersion, LineFault>
    ensures { IsReadAs result (named is_bp_version text.now) }
{
    let Ok(text) = str::from_utf8(text) else {
        return Err(LineFault::Bad);
    };
    match BpVersion::parse(alloc, text) {
        Ok(version) => Ok(version),
        Err(NameFault::Bad) => Err(LineFault::Bad),
        Err(NameFault::Memory) => Err(LineFault::Memory),
    }
}

fn target_name(alloc: Global, text: &[u8]) -> Result<Text, LineFault>
    ensures { IsReadAs result (named is_target_name text.now) }
{
    let Ok(text) = str::from_utf8(text) else {
        return Err(LineFault::Bad);
    };
    if !is_target_name(text) {
        return Err(LineFault::Bad);
    }
    Ok(Text::of(alloc, text)?)
}

#[tactic(auto, unfolding(crate::specs::Lines::key_from))]
fn key_from(alloc: Global, id: &[u8], version: &[u8]) -> Result<Key, LineFault>
    ensures { IsReadAs result (key_from id.now version.now) }
{
    let id = id_from(alloc, id)?;
    let version = version_from(alloc, version)?;
    Ok(Key { id, version })
}

#[tactic(auto, unfolding(crate::specs::Lines::target_of_names))]
fn target_of_names(alloc: Global, os: &[u8], arch: &[u8]) -> Result<Option<Target>, LineFault>
    ensures { IsReadAs result (target_of_names os.now arch.now) }
{
    let os = target_name(alloc, os)?;
    let arch = target_name(alloc, arch)?;
    Ok(Some(Target { os, arch }))
}

fn no_target(text: &[u8]) -> Result<Option<Target>, LineFault>
    ensures { IsReadAs result (no_target text.now) }
{
    if text == b"none".as_slice() {
        return Ok(None);
    }
    Err(LineFault::Bad)
}

#[tactic(auto, unfolding(crate::specs::Lines::target_from))]
fn target_from(alloc: Global, text: &[u8]) -> Result<Option<Target>, LineFault>
    ensures { IsReadAs result (target_from text.now) }
{
    match cut(text, b' ') {
        Some((os, arch)) => target_of_names(alloc, os, arch),
        None => no_target(text),
    }
}

#[tactic(auto, unfolding(crate::specs::Lines::probed_from))]
fn probed_from(alloc: Global, text: &[u8]) -> Result<Probed, LineFault>
    ensures { IsReadAs result (probed_from text.now) }
{
    let Some((code, plan)) = cut(text, b' ') else {
        return Err(LineFault::Bad);
    };
    let Some(code) = code_in(code) else {
        return Err(LineFault::Bad);
    };
    let plan = plan_in(alloc, plan)?;
    Ok(Probed { code, plan })
}

#[tactic(auto, unfolding(crate::specs::Lines::answer_from))]
fn answer_from(alloc: Global, text: &[u8]) -> Result<Line, LineFault>
    ensures { IsReadAs result (answer_from text.now) }
{
    let Some((id, rest)) = cut(text, b' ') else {
        return Err(LineFault::Bad);
    };
    let Some((version, rest)) = cut(rest, b' ') else {
        return Err(LineFault::Bad);
    };
    let key = key_from(alloc, id, version)?;
    let probed = probed_from(alloc, rest)?;
    Ok(Line::Answer(key, probed))
}

fn number_from(text: &[u8]) -> Result<u32, LineFault>
    ensures { IsReadAs result (number_in text.now) }
{
    match number_in(text) {
        Some(number) => Ok(number),
        None => Err(LineFault::Bad),
    }
}

#[tactic(auto, unfolding(crate::specs::Lines::group_line))]
fn group_line(alloc: Global, name: &[u8], text: &[u8]) -> Result<GroupLine, LineFault>
    ensures { IsReadAs result (group_line name.now text.now) }
{
    if name == b"fails".as_slice() {
        return Ok(GroupLine::Fails(number_from(text)?));
    }
    if name == b"trials".as_slice() {
        return Ok(GroupLine::Trials(number_from(text)?));
    }
    if name == b"chosen".as_slice() {
        return Ok(GroupLine::Chosen(number_from(text)?));
    }
    if name == b"drop".as_slice() {
        return Ok(GroupLine::Drop(steps_in(alloc, text)?));
    }
    if name == b"keep".as_slice() {
        return Ok(GroupLine::Keep(steps_in(alloc, text)?));
    }
    Err(LineFault::Bad)
}

fn head_from(text: &[u8]) -> Result<Line, LineFault>
    ensures { IsReadAs result (head_from text.now) }
{
    if text == b"1".as_slice() {
        return Ok(Line::Head);
    }
    Err(LineFault::Bad)
}

#[tactic(auto, unfolding(crate::specs::Lines::named_line))]
fn named_line(alloc: Global, name: &[u8], text: &[u8]) -> Result<Line, LineFault>
    ensures { IsReadAs result (named_line name.now text.now) }
{
    if name == b"cnb-record".as_slice() {
        return head_from(text);
    }
    if name == b"target".as_slice() {
        return Ok(Line::Target(target_from(alloc, text)?));
    }
    if name == b"answer".as_slice() {
        return answer_from(alloc, text);
    }
    Ok(Line::Group(group_line(alloc, name, text)?))
}

#[tactic(auto, unfolding(crate::specs::Lines::bare_line))]
fn bare_line(alloc: Global, name: &[u8]) -> Result<Line, LineFault>
    ensures { IsReadAs result (bare_line name.now) }
{
    if name == b"idle".as_slice() {
        return Ok(Line::Group(GroupLine::Idle));
    }
    if name == b"keep".as_slice() {
        return Ok(Line::Group(GroupLine::Keep(List::new(alloc))));
    }
    Err(LineFault::Bad)
}

/// The line that bytes without a line feed are.
#[tactic(auto, unfolding(crate::specs::Lines::line_in))]
pub(crate) fn line_in(alloc: Global, text: &[u8]) -> Result<Line, LineFault>
    ensures { IsReadAs result (line_in text.now) }
{
    match cut(text, b' ') {
        Some((name, parts)) => named_line(alloc, name, parts),
        None => bare_line(alloc, text),
    }
}

/// The first line of bytes, and what is behind its line feed.
pub(crate) fn first_line(alloc: Global, bytes: &[u8]) -> Result<(Line, &[u8]), LineFault>
    ensures line { IfOk result (λ read. lines_in bytes.now ≡ Some read.0 ∷ lines_in read.1.now) }
    ensures rest { IfOk result (λ read. length read.1.now < length bytes.now) }
    ensures bad { IfErr result (IsRefused (lines_in bytes.now)) }
{
    let Some((text, rest)) = cut(bytes, b'\n') else {
        return Err(LineFault::Bad);
    };
    match line_in(alloc, text) {
        Ok(line) => Ok((line, rest)),
        Err(fault) => Err(fault),
    }
}

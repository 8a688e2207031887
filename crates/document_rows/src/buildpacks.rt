// Orders, descriptors and Build Plans.
use crate::given::{ample, given_bytes};
use crate::metadata::text_of;
use bp_docs::{
    Body, Descriptor, Entry, Order, PlanOption, TargetRule, read_build_plan, read_buildpack,
    read_order,
};
use cnb_toml::Need;
use cnb_world::Text;
use row_files::{Row, RowFault};
use std::alloc::{AllocError, Global};

// An entry, as `a@1.2.3?`, where `?` marks an optional one.
fn entry_text(alloc: Global, entry: &Entry) -> Result<String, AllocError> {
    let mark = if entry.optional { "?" } else { "" };
    match &entry.version {
        Some(version) => format!(in alloc; "{}@{}{mark}", entry.id.as_str(), version.as_str()),
        None => format!(in alloc; "{}{mark}", entry.id.as_str()),
    }
}

fn add_group(alloc: Global, text: &mut String, group: &[Entry]) -> Result<(), AllocError> {
    text.push_str("[")?;
    for entry in group {
        text.push_str(" ")?;
        text.push_str(entry_text(alloc, entry)?.as_str())?;
    }
    text.push_str(" ]")?;
    Ok(())
}

/// Groups, as `[ a@1.2.3? b ][ c ]`.
pub(crate) fn order_text(alloc: Global, order: &Order) -> Result<String, AllocError> {
    let mut text = String::new(alloc);
    for group in order.as_slice() {
        add_group(alloc, &mut text, group.as_slice())?;
    }
    Ok(text)
}

/// The groups of an order.
pub(crate) fn told_order(alloc: Global, row: &Row) -> Result<String, RowFault> {
    let bytes = given_bytes(alloc, row)?;
    match read_order(alloc, &bytes) {
        Ok(order) => Ok(order_text(alloc, &order)?),
        Err(fault) => Ok(format!(in alloc; "{fault}")?),
    }
}

// A component, and behind it where it has targets `for` and each, as `linux/amd64`; what may be any is left out.
fn component_text(
    alloc: Global,
    clear_env: bool,
    targets: &[TargetRule],
) -> Result<String, AllocError> {
    let mut text = format!(in alloc; "component, clear-env {clear_env}")?;
    for (place, rule) in targets.iter().enumerate() {
        let (os, arch) = (text_or_empty(&rule.os), text_or_empty(&rule.arch));
        text.push_str(if place == 0 { ", for" } else { "" })?;
        text.push_str(format!(in alloc; " {os}/{arch}")?.as_str())?;
    }
    Ok(text)
}

fn text_or_empty(text: &Option<Text>) -> &str {
    match text {
        Some(text) => text.as_str(),
        None => "",
    }
}

fn body_text(alloc: Global, body: &Body) -> Result<String, AllocError> {
    match body {
        Body::Component { clear_env, targets } => {
            component_text(alloc, *clear_env, targets.as_slice())
        }
        Body::Composite(order) => {
            let order = order_text(alloc, order)?;
            format!(in alloc; "composite of {order}")
        }
        Body::Foreign(api) => format!(in alloc; "of API `{}`", api.as_str()),
    }
}

fn descriptor_text(alloc: Global, descriptor: &Descriptor) -> Result<String, RowFault> {
    let key = ample(descriptor.key.copy(alloc))?;
    let body = body_text(alloc, &descriptor.body)?;
    let (id, version) = (key.id.as_str(), key.version.as_str());
    Ok(format!(in alloc; "{id}@{version} {body}")?)
}

/// A descriptor, as `a@1.0.0 component, clear-env false`.
pub(crate) fn told_buildpack(alloc: Global, row: &Row) -> Result<String, RowFault> {
    let bytes = given_bytes(alloc, row)?;
    match read_buildpack(alloc, &bytes) {
        Ok(descriptor) => descriptor_text(alloc, &descriptor),
        Err(fault) => Ok(format!(in alloc; "{fault}")?),
    }
}

// A requirement, as the table that it is written as.
fn need_text(alloc: Global, need: &Need) -> Result<String, RowFault> {
    let table = ample(need.to_table(alloc))?;
    Ok(text_of(alloc, &table)?)
}

fn add_option(alloc: Global, text: &mut String, option: &PlanOption) -> Result<(), RowFault> {
    let option = ample(option.copy(alloc))?;
    text.push_str("provides")?;
    for name in option.provides.as_slice() {
        text.push_str(" ")?;
        text.push_str(name.as_str())?;
    }
    text.push_str("\n")?;
    for need in option.needs.as_slice() {
        text.push_str("requires ")?;
        text.push_str(need_text(alloc, need)?.as_str())?;
    }
    Ok(())
}

fn options_text(alloc: Global, options: &[PlanOption]) -> Result<String, RowFault> {
    let mut text = String::new(alloc);
    for option in options {
        add_option(alloc, &mut text, option)?;
    }
    Ok(text)
}

/// The alternatives of a Build Plan: for each a line with the names that it provides, and then what it requires.
pub(crate) fn told_build_plan(alloc: Global, row: &Row) -> Result<String, RowFault> {
    let bytes = given_bytes(alloc, row)?;
    match read_build_plan(alloc, &bytes) {
        Ok(options) => options_text(alloc, options.as_slice()),
        Err(fault) => Ok(format!(in alloc; "{fault}")?),
    }
}

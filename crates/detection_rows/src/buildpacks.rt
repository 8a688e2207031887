// Buildpacks, orders and groups of buildpacks as rows write them.
use crate::given::{expanded, refuse};
use bp_docs::{
    Body, Descriptor, Order, PlanOption, TargetRule, Targets, read_build_plan, read_buildpack,
    read_order,
};
use cnb_toml::{BpId, BpVersion, DocFault, Key, Target};
use cnb_world::{List, Text};
use order_expand::Catalog;
use row_files::{Answer, Row};

/// The key that `a` or `a@2.0.0` says; a version that is left out is 1.0.0.
pub(crate) fn key(answer: &mut Answer, text: &str) -> Option<Key> {
    let (id, version) = text.split_once('@').unwrap_or((text, "1.0.0"));
    match (
        BpId::parse(answer.alloc, id),
        BpVersion::parse(answer.alloc, version),
    ) {
        (Ok(id), Ok(version)) => Some(Key { id, version }),
        _ => {
            answer.wrong("no buildpack:", text);
            None
        }
    }
}

/// Adds a key as `a@2.0.0`.
pub(crate) fn put_key(answer: &mut Answer, key: &Key) {
    answer.put_all(&[key.id.as_str(), "@", key.version.as_str()]);
}

// What was read of a document. Its fault is kept, with the document behind it.
fn read<T: Drop>(answer: &mut Answer, text: &str, read: Result<T, DocFault>) -> Option<T> {
    match read {
        Ok(value) => Some(value),
        Err(fault) => {
            refuse(answer, &fault, ": ", text);
            None
        }
    }
}

/// The order that a row has as a document.
pub(crate) fn order(answer: &mut Answer, row: &Row) -> Option<Order> {
    let text = answer.given(row, "order");
    let text = expanded(answer, row, text);
    let order = read_order(answer.alloc, text.as_bytes());
    read(answer, text.as_str(), order)
}

/// The alternatives of a Build Plan.
pub(crate) fn options(answer: &mut Answer, text: &str) -> Option<List<PlanOption>> {
    let options = read_build_plan(answer.alloc, text.as_bytes());
    read(answer, text, options)
}

fn push_component(answer: &mut Answer, row: &Row, descriptors: &mut List<Descriptor>, name: &str) {
    let rules = rules(answer, row, name);
    let targets = answer.made(Targets::new(answer.alloc, rules));
    if let (Some(key), Some(targets)) = (key(answer, name), targets) {
        let body = Body::Component {
            clear_env: false,
            targets,
        };
        answer.done(descriptors.push(Descriptor { key, body }));
    }
}

// The targets of a component: those of its lines, each a name as among the components and targets as `linux/amd64`.
fn rules(answer: &mut Answer, row: &Row, name: &str) -> List<TargetRule> {
    let mut rules = List::new(answer.alloc);
    for line in row.text_or_empty("targets").lines() {
        let mut words = line.split_whitespace();
        if words.next() == Some(name) {
            for word in words {
                push_rule(answer, &mut rules, word);
            }
        }
    }
    rules
}

// One target, as `linux/amd64`, `linux/`, `/amd64` or `/`.
fn push_rule(answer: &mut Answer, rules: &mut List<TargetRule>, text: &str) {
    let (os, arch) = os_and_arch(answer, text);
    let os = text_or_none(answer, os);
    let arch = text_or_none(answer, arch);
    answer.done(rules.push(TargetRule { os, arch }));
}

fn os_and_arch<'a>(answer: &mut Answer, text: &'a str) -> (&'a str, &'a str) {
    match text.split_once('/') {
        Some(parts) => parts,
        None => {
            answer.wrong("no target:", text);
            ("", "")
        }
    }
}

fn text_or_none(answer: &mut Answer, text: &str) -> Option<Text> {
    if text.is_empty() {
        None
    } else {
        Some(answer.text(text))
    }
}

/// The image that a row builds for, as `linux/amd64`, where it has one.
pub(crate) fn target(answer: &mut Answer, row: &Row) -> Option<Target> {
    let text = row.text_or_empty("target");
    if text.is_empty() {
        return None;
    }
    let (os, arch) = os_and_arch(answer, text);
    let os = answer.text(os);
    let arch = answer.text(arch);
    Some(Target { os, arch })
}

/// The descriptors of a row: its components, and behind them its documents between blank lines.
pub(crate) fn descriptors(answer: &mut Answer, row: &Row) -> Vec<Descriptor> {
    let mut descriptors = List::new(answer.alloc);
    for name in row.text_or_empty("components").split_whitespace() {
        push_component(answer, row, &mut descriptors, name);
    }
    let documents = expanded(answer, row, row.text_or_empty("descriptors"));
    for document in documents.as_str().split("\n\n") {
        push_document(answer, &mut descriptors, document);
    }
    descriptors.into_vec()
}

fn push_document(answer: &mut Answer, descriptors: &mut List<Descriptor>, document: &str) {
    if document.trim().is_empty() {
        return;
    }
    let descriptor = read_buildpack(answer.alloc, document.as_bytes());
    if let Some(descriptor) = read(answer, document, descriptor) {
        answer.done(descriptors.push(descriptor));
    }
}

/// The catalog of a row's descriptors.
pub(crate) fn catalog(answer: &mut Answer, row: &Row) -> Catalog {
    let mut catalog = Catalog::new(answer.alloc);
    for descriptor in descriptors(answer, row) {
        if let Err(fault) = catalog.add(descriptor) {
            refuse(answer, &fault, "", "");
        }
    }
    catalog
}

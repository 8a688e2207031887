// Orders and descriptors that rows write short.
use crate::items::push_file;
use crate::taking::table;
use cnb_world::{List, Placed};
use row_files::{Answer, Fields, text_of};

/// The id and the version that a name as `a@2.0.0` has; version 1.0.0 may be left out.
pub(crate) fn id_and_version(name: &str) -> (&str, &str) {
    name.split_once('@').unwrap_or((name, "1.0.0"))
}

/// Adds the order and the descriptors that a scenario writes short.
pub(crate) fn push_documents(answer: &mut Answer, items: &mut List<Placed>, row: Fields) {
    if let Some(order) = row.text("order") {
        push_order(answer, items, order);
    }
    for name in row.text_or_empty("buildpacks").split_whitespace() {
        push_descriptor(answer, items, name, "", None);
    }
    if let Some(all) = table(row, "targets") {
        for (name, targets) in all {
            push_descriptor(answer, items, name, text_of(targets), None);
        }
    }
    if let Some(all) = table(row, "composites") {
        for (name, order) in all {
            push_descriptor(answer, items, name, "", Some(text_of(order)));
        }
    }
}

fn push_order(answer: &mut Answer, items: &mut List<Placed>, order: &str) {
    let mut document = Answer::new(answer.alloc);
    put_order(&mut document, order);
    let text = answer.taken(document);
    push_file(answer, items, "/order.toml", text.as_bytes());
}

// Adds the descriptor of a component with targets or, where there is an order, of a composite.
fn push_descriptor(
    answer: &mut Answer,
    items: &mut List<Placed>,
    name: &str,
    targets: &str,
    order: Option<&str>,
) {
    let mut path = Answer::new(answer.alloc);
    put_path(&mut path, name);
    let mut document = Answer::new(answer.alloc);
    put_descriptor(&mut document, name, targets, order);
    let text = answer.taken(document);
    let path = answer.taken(path);
    push_file(answer, items, &path, text.as_bytes());
}

// The path of a buildpack's descriptor. In the folder's name each slash of the id is a `_`.
fn put_path(path: &mut Answer, name: &str) {
    let (id, version) = id_and_version(name);
    let mut front = "/buildpacks/";
    for part in id.split('/') {
        path.put_all(&[front, part]);
        front = "_";
    }
    path.put_all(&["/", version, "/buildpack.toml"]);
}

fn put_descriptor(document: &mut Answer, name: &str, targets: &str, order: Option<&str>) {
    let (id, version) = id_and_version(name);
    document.put("api = \"0.10\"\n[buildpack]\n");
    put_text(document, "id", id);
    put_text(document, "version", version);
    for target in targets.split_whitespace() {
        put_target(document, target);
    }
    if let Some(order) = order {
        put_order(document, order);
    }
}

fn put_text(document: &mut Answer, key: &str, text: &str) {
    document.put_all(&[key, " = \"", text, "\"\n"]);
}

// A target as `linux/arm64`, `linux/` or `/amd64`: an operating system and an architecture, either of which may be
// left out.
fn put_target(document: &mut Answer, target: &str) {
    let (os, arch) = target.split_once('/').unwrap_or((target, ""));
    document.put("[[targets]]\n");
    if !os.is_empty() {
        put_text(document, "os", os);
    }
    if !arch.is_empty() {
        put_text(document, "arch", arch);
    }
}

// An order as `a@1.0.0 b? | c`: groups between bars, and their entries.
fn put_order(document: &mut Answer, order: &str) {
    for group in order.split('|') {
        document.put("[[order]]\n");
        for entry in group.split_whitespace() {
            put_entry(document, entry);
        }
    }
}

fn put_entry(document: &mut Answer, entry: &str) {
    let name = entry.strip_suffix('?').unwrap_or(entry);
    let (id, version) = name.split_once('@').unwrap_or((name, ""));
    document.put("[[order.group]]\n");
    put_text(document, "id", id);
    put_text(document, "version", version);
    document.put("optional = ");
    document.show(&entry.ends_with('?'));
    document.put("\n");
}

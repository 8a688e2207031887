// Files in memory, and the calls that read one document or folder.
ghost use Rattle.std.specs.Prelude.{◌≤◌, length};

use crate::environments::{put_contents, put_files};
use crate::given::{expanded, path_given};
use crate::orders::put_order;
use bp_docs::{Entry, Order};
use cnb_env::{contents, platform_files};
use cnb_world::{Bytes, Item, List, MemWorld, Path, Placed};
use order_expand::Catalog;
use order_files::{ReadFault, read_catalog, read_order_file};
use row_files::{Answer, Row};

/// The world in which the files stand that a row gives under their paths, and in which the calls fail that it numbers.
pub(crate) fn world(answer: &mut Answer, row: &Row) -> Option<MemWorld> {
    let mut items = List::new(answer.alloc);
    for (name, text) in &row.given {
        if name.as_str().starts_with('/') {
            push_placed(answer, row, &mut items, name.as_str(), text.as_str());
        }
    }
    let failing = answer.numbers(row.text_or_empty("failing"));
    let plays = List::new(answer.alloc);
    answer.made(MemWorld::new(answer.alloc, items, plays, failing))
}

fn push_placed(answer: &mut Answer, row: &Row, items: &mut List<Placed>, name: &str, text: &str) {
    let (name, item) = item_of(answer, row, name, text);
    if let Some(path) = answer.path(name) {
        answer.done(items.push(Placed { path, item }));
    }
}

// What stands at a path: a folder behind which a slash stands, a link with `@`, bytes in hexadecimal with `:hex`, or
// text.
fn item_of<'a>(answer: &mut Answer, row: &Row, name: &'a str, text: &str) -> (&'a str, Item) {
    if let Some(name) = name.strip_suffix('/') {
        return (name, Item::Folder);
    }
    if let Some(name) = name.strip_suffix('@') {
        let target = answer.text(text);
        return (name, Item::Link { target });
    }
    match name.strip_suffix(":hex") {
        Some(name) => (name, file(bytes_of(answer, text))),
        None => (name, file(expanded(answer, row, text).into_bytes())),
    }
}

fn file(bytes: Vec<u8>) -> Item {
    let bytes = Bytes::from_vec(bytes);
    Item::File { exec: false, bytes }
}

fn bytes_of(answer: &mut Answer, text: &str) -> Vec<u8> {
    match hex::decode(answer.alloc, text) {
        Ok(bytes) => bytes,
        Err(_) => {
            answer.wrong("no bytes:", text);
            Vec::new(answer.alloc)
        }
    }
}

/// Adds why a document or a folder was not read.
pub(crate) fn put_refusal(answer: &mut Answer, fault: &ReadFault) {
    match fault {
        ReadFault::File(path) => answer.put_all(&[path.as_str(), " failed"]),
        ReadFault::Document(path, fault) => {
            answer.put_all(&[path.as_str(), ": "]);
            answer.show(fault);
        }
        ReadFault::Limit(kind) => {
            answer.put("limit ");
            answer.debug(kind);
        }
        ReadFault::Memory => answer.put("out of memory"),
    }
}

/// What the row's call reads at the path under a name.
pub(crate) fn read(answer: &mut Answer, row: &Row, name: &str) {
    if let Some(mut world) = world(answer, row) {
        if let Some(path) = path_given(answer, row, name) {
            put_read(answer, row, &mut world, &path);
        }
    }
}

fn put_read(answer: &mut Answer, row: &Row, world: &mut MemWorld, path: &Path)
    requires { length path.now ≤ 4096 }
{
    match row.call.as_str() {
        "read_order_file" => put_entries(answer, &read_order_file(answer.alloc, world, path)),
        "read_catalog" => put_catalog(answer, row, &read_catalog(answer.alloc, world, path)),
        "platform_files" => put_files(answer, &platform_files(answer.alloc, world, path)),
        _ => put_contents(answer, &contents(answer.alloc, world, path)),
    }
}

// Adds the groups of an order file, each on a line as `a b@1.0.0?`.
fn put_entries(answer: &mut Answer, order: &Result<Order, ReadFault>) {
    match order {
        Ok(order) => put_groups(answer, order),
        Err(fault) => put_refusal(answer, fault),
    }
}

fn put_groups(answer: &mut Answer, order: &Order) {
    answer.show(&order.as_slice().len());
    answer.put(" groups\n");
    for group in order.as_slice() {
        for (place, entry) in group.as_slice().iter().enumerate() {
            answer.put(if place == 0 { "" } else { " " });
            put_entry(answer, entry);
        }
        answer.put("\n");
    }
}

fn put_entry(answer: &mut Answer, entry: &Entry) {
    answer.put(entry.id.as_str());
    if let Some(version) = &entry.version {
        answer.put_all(&["@", version.as_str()]);
    }
    answer.put(if entry.optional { "?" } else { "" });
}

// Adds the row's order over the catalog of a folder.
fn put_catalog(answer: &mut Answer, row: &Row, catalog: &Result<Catalog, ReadFault>) {
    match catalog {
        Ok(catalog) => put_order(answer, row, catalog),
        Err(fault) => put_refusal(answer, fault),
    }
}

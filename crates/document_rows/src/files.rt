// Documents in files, in memory: a file, a link and a folder, each where a row names its path.
use crate::buildpacks::order_text;
use crate::given::{ample, given_bytes};
use bp_docs::read_order;
use cnb_world::{Bytes, Item, List, MemWorld, Path, Placed, Text};
use doc_files::{ReadFault, is_folder, list_names, read_at, read_document};
use row_files::{Row, RowFault};
use std::alloc::{AllocError, Global};

fn path_of(alloc: Global, row: &Row, name: &str) -> Result<Path, RowFault> {
    let text = row.text(alloc, name)?;
    match Path::parse(alloc, text) {
        Ok(path) => Ok(path),
        Err(_) => Err(RowFault::wrong(alloc, "no path:", text)),
    }
}

fn item_of(alloc: Global, row: &Row, kind: &str) -> Result<Item, RowFault> {
    match kind {
        "file" => {
            let bytes = Bytes::from_vec(given_bytes(alloc, row)?);
            Ok(Item::File { exec: false, bytes })
        }
        "link" => {
            let target = ample(Text::of(alloc, row.text(alloc, "target")?))?;
            Ok(Item::Link { target })
        }
        "folder" => Ok(Item::Folder),
        _ => Ok(Item::Odd),
    }
}

fn world(alloc: Global, row: &Row) -> Result<MemWorld, RowFault> {
    let mut items = List::new(alloc);
    for kind in ["file", "link", "folder", "odd"] {
        if row.given.contains_key(kind) {
            let path = path_of(alloc, row, kind)?;
            let item = item_of(alloc, row, kind)?;
            ample(items.push(Placed { path, item }))?;
        }
    }
    let mut failing = List::new(alloc);
    if row.given.contains_key("failing") {
        ample(failing.push(row.number(alloc, "failing")?))?;
    }
    ample(MemWorld::new(alloc, items, List::new(alloc), failing))
}

fn fault_text(alloc: Global, fault: &ReadFault) -> Result<String, AllocError> {
    match fault {
        ReadFault::File(path) => format!(in alloc; "a call on {} failed", path.as_str()),
        ReadFault::Document(path, fault) => format!(in alloc; "{}: {fault}", path.as_str()),
        ReadFault::Limit(kind) => format!(in alloc; "beyond the limit {kind:?}"),
        ReadFault::Memory => String::from_str(alloc, "out of memory"),
    }
}

fn document(alloc: Global, world: &mut MemWorld, path: &Path) -> Result<String, ReadFault> {
    match read_document(alloc, world, path)? {
        Some(bytes) => Ok(String::from_utf8_lossy(alloc, bytes.as_slice())?),
        None => Ok(String::from_str(alloc, "absent")?),
    }
}

fn order(alloc: Global, world: &mut MemWorld, path: &Path) -> Result<String, ReadFault> {
    match read_document(alloc, world, path)? {
        Some(bytes) => {
            let order = read_at(alloc, path, read_order(alloc, bytes.as_slice()))?;
            Ok(order_text(alloc, &order)?)
        }
        None => Ok(String::from_str(alloc, "absent")?),
    }
}

fn folder(alloc: Global, world: &mut MemWorld, path: &Path) -> Result<String, ReadFault> {
    let is_folder = is_folder(alloc, world, path)?;
    Ok(format!(in alloc; "{is_folder}")?)
}

fn names(alloc: Global, world: &mut MemWorld, path: &Path) -> Result<String, ReadFault> {
    let names = list_names(alloc, world, path)?;
    let mut text = String::new(alloc);
    for name in names.as_slice() {
        text.push_str(name.as_str())?;
        text.push_str(";")?;
    }
    Ok(text)
}

/// What is read at the path `at`, as the call says: the text of a document, the groups of an order, whether a folder
/// stands there, or its names, each with `;` behind it.
pub(crate) fn told_at_path(alloc: Global, row: &Row) -> Result<String, RowFault> {
    let mut world = world(alloc, row)?;
    let path = path_of(alloc, row, "at")?;
    let answer = match row.call.as_str() {
        "document at a path" => document(alloc, &mut world, &path),
        "order at a path" => order(alloc, &mut world, &path),
        "folder at a path" => folder(alloc, &mut world, &path),
        _ => names(alloc, &mut world, &path),
    };
    match answer {
        Ok(text) => Ok(text),
        Err(fault) => Ok(fault_text(alloc, &fault)?),
    }
}

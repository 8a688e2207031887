// Documents that are refused, explained.

use crate::expected::expected_at;
use cnb_world::Memory;
use std::alloc::Global;

// The faults that have a key behind them, and what each says of it.
static AT_KEYS: [(&str, &str); 4] = [
    ("Missing", "is missing"),
    (
        "Wrong",
        "has a value of another kind, or one that a rule of the document forbids",
    ),
    ("Name", "has a text of the wrong form"),
    ("MetaKind", "has a value that metadata can't hold"),
];

// The faults of a whole document, and what to do about each.
static OF_DOCUMENTS: [(&str, &str); 2] = [
    ("NotUtf8", "isn't UTF-8; save it as UTF-8"),
    (
        "NotToml",
        "can't be read as TOML; look for an open bracket or quote, or a key that is there twice",
    ),
];

// What to do where no document is at a path that ends like this.
static ABSENT: [(&str, &str); 6] = [
    (
        "/group.toml",
        "`lifecycle detect` writes it: run it first, with the same --work",
    ),
    (
        "/plan.toml",
        "`lifecycle detect` writes it: run it first, with the same --work",
    ),
    (
        "/analyzed.toml",
        "`lifecycle analyze` writes it: run it first, with the same --work",
    ),
    (
        "/buildpack.toml",
        "the group has a buildpack that the folder of --buildpacks hasn't got",
    ),
    (
        "/layers/config/metadata.toml",
        "`lifecycle unpack` writes it: unpack an image, and name its root by --root",
    ),
    ("", "is the path right?"),
];

/// What is wrong with a document, by the detail of its refusal: its path, the fault, and the key of one that has a key.
pub(crate) fn document_sentence(alloc: Global, detail: &str) -> Result<Option<String>, Memory> {
    if let Some(path) = detail.strip_suffix(" Absent") {
        return absent_sentence(alloc, path);
    }
    for (fault, what) in OF_DOCUMENTS.iter() {
        if let Some(path) = detail.strip_suffix(fault) {
            return Ok(Some(format!(in alloc; "{}{what}", path.escape_debug())?));
        }
    }
    for (fault, what) in AT_KEYS.iter() {
        if let Some((path, key)) = at_key(alloc, detail, fault)? {
            return key_sentence(alloc, path, fault, key, what).map(Some);
        }
    }
    Ok(None)
}

fn absent_sentence(alloc: Global, path: &str) -> Result<Option<String>, Memory> {
    for (end, advice) in ABSENT.iter() {
        if path.ends_with(*end) {
            return Ok(Some(format!(in alloc; "no file is at {}; {advice}", path.escape_debug())?));
        }
    }
    Ok(None)
}

// The path in front of a fault, and the key behind it.
fn at_key<'a>(
    alloc: Global,
    detail: &'a str,
    fault: &str,
) -> Result<Option<(&'a str, &'a str)>, Memory> {
    let between = format!(in alloc; " {fault} ")?;
    Ok(detail.split_once(between.as_str()))
}

fn key_sentence(
    alloc: Global,
    path: &str,
    fault: &str,
    key: &str,
    what: &str,
) -> Result<String, Memory> {
    let mut text = format!(in alloc; "{}: {} {what}", path.escape_debug(), key.escape_debug())?;
    if let Some(expected) = expected_at(alloc, fault, key)? {
        text.push_str("; expected there: ")?;
        text.push_str(expected)?;
    }
    Ok(text)
}

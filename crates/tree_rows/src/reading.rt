// What rows write: bytes and items.
use cnb_world::{Bytes, Item, List, Placed};
use row_files::{Answer, Row};

/// What is given under a name, and no text where nothing is.
pub(crate) fn text_or_none<'a>(row: &'a Row, name: &str) -> &'a str {
    match row.given.get(name) {
        Some(text) => text.as_str(),
        None => "",
    }
}

/// The bytes under a name.
pub(crate) fn bytes_given(answer: &mut Answer, row: &Row, name: &str) -> Bytes {
    let words = answer.given(row, name);
    bytes_of(answer, words)
}

/// The bytes that words spell: one that begins with `'` is its text, `5*00` is `00` five times, and others are
/// hexadecimal digits.
pub(crate) fn bytes_of(answer: &mut Answer, words: &str) -> Bytes {
    let mut bytes = answer.bytes(b"");
    for word in words.split_whitespace() {
        add_word(answer, &mut bytes, word);
    }
    bytes
}

fn add_word(answer: &mut Answer, bytes: &mut Bytes, word: &str) {
    let (times, word) = word.split_once('*').unwrap_or(("1", word));
    let more = word_bytes(answer, word);
    add_often(answer, bytes, times, more.as_slice());
}

fn add_often(answer: &mut Answer, bytes: &mut Bytes, times: &str, more: &[u8]) {
    for _ in 0..answer.number(times) {
        answer.done(bytes.append(more));
    }
}

fn word_bytes(answer: &mut Answer, word: &str) -> Bytes {
    if let Some(text) = word.strip_prefix("'") {
        return answer.bytes(text.as_bytes());
    }
    match hex::decode(answer.alloc, word) {
        Ok(bytes) => Bytes::from_vec(bytes),
        Err(_) => {
            answer.wrong("no bytes:", word);
            answer.bytes(b"")
        }
    }
}

/// What stands before the first space, and what behind it.
pub(crate) fn cut(line: &str) -> (&str, &str) {
    line.split_once(' ').unwrap_or((line, ""))
}

/// What a line says: `folder a`, `file a [exec] [times N] TEXT`, `link a -> TARGET` or `odd a`; first its path.
pub(crate) fn item_of<'a>(answer: &mut Answer, line: &'a str) -> (&'a str, Item) {
    let (kind, rest) = cut(line);
    let (path, rest) = cut(rest);
    let item = match kind {
        "folder" => Item::Folder,
        "odd" => Item::Odd,
        "file" => file(answer, rest),
        "link" => link(answer, rest),
        _ => {
            answer.wrong("no item:", line);
            Item::Odd
        }
    };
    (path, item)
}

fn file(answer: &mut Answer, rest: &str) -> Item {
    let (exec, text) = match rest.strip_prefix("[exec]") {
        Some(text) => (true, text.strip_prefix(" ").unwrap_or(text)),
        None => (false, rest),
    };
    let bytes = contents(answer, text);
    Item::File { exec, bytes }
}

// `[times N] TEXT` is the text so many times.
fn contents(answer: &mut Answer, text: &str) -> Bytes {
    let (times, text) = match text.strip_prefix("[times ") {
        Some(rest) => rest.split_once("] ").unwrap_or(("", rest)),
        None => ("1", text),
    };
    let mut bytes = answer.bytes(b"");
    add_often(answer, &mut bytes, times, text.as_bytes());
    bytes
}

fn link(answer: &mut Answer, rest: &str) -> Item {
    let target = match rest.strip_prefix("->") {
        Some(target) => target.trim_start(),
        None => {
            answer.wrong("no link's target:", rest);
            ""
        }
    };
    let target = answer.text(target);
    Item::Link { target }
}

/// Adds the items of lines, with this text in front of their paths.
pub(crate) fn push_items(answer: &mut Answer, items: &mut List<Placed>, front: &str, lines: &str) {
    for line in lines.lines() {
        let (path, item) = item_of(answer, line);
        push_item(answer, items, &[front, path], item);
    }
}

/// Adds an item at the path that these texts make.
pub(crate) fn push_item(answer: &mut Answer, items: &mut List<Placed>, path: &[&str], item: Item) {
    let path = answer.joined(path);
    if let Some(path) = answer.path(path.as_str()) {
        answer.done(items.push(Placed { path, item }));
    }
}

// What stands at paths, and what the children of programs do.
use crate::taking::{path_of, table};
use crate::trees::Trees;
use cnb_world::{Bytes, End, Item, List, Path, Placed, Play};
use row_files::{Answer, Fields, text_of};
use toml::Value;

/// Adds a file with these bytes.
pub(crate) fn push_file(answer: &mut Answer, items: &mut List<Placed>, path: &str, bytes: &[u8]) {
    let bytes = answer.bytes(bytes);
    push_item(answer, items, path, Item::File { exec: false, bytes });
}

fn push_item(answer: &mut Answer, items: &mut List<Placed>, path: &str, item: Item) {
    if let Some(path) = path_of(answer, path) {
        answer.done(items.push(Placed { path, item }));
    }
}

/// Adds a folder at a place, and in it what stands at each path from its root.
pub(crate) fn push_folder(
    answer: &mut Answer,
    items: &mut List<Placed>,
    place: &str,
    rows: &[Value],
) {
    push_item(answer, items, place, Item::Folder);
    let front = if place == "/" { "" } else { place };
    push_files(answer, items, front, rows);
}

/// Adds what stands at each path, behind this text.
pub(crate) fn push_files(
    answer: &mut Answer,
    items: &mut List<Placed>,
    front: &str,
    rows: &[Value],
) {
    for value in rows {
        let row = Fields { value };
        let path = answer.joined(&[front, row.text_or_empty("path")]);
        let item = item_of(answer, row);
        push_item(answer, items, &path, item);
    }
}

/// Adds the trees that a row lays, each at its path.
pub(crate) fn push_trees(
    answer: &mut Answer,
    items: &mut List<Placed>,
    trees: &Trees,
    row: Fields,
) {
    if let Some(lays) = table(row, "lays") {
        for (place, name) in lays {
            if let Some(tree) = trees.named(answer, text_of(name)) {
                push_folder(answer, items, place, tree.files());
            }
        }
    }
}

/// Adds the files of the trees that are named, in the store.
pub(crate) fn push_stored(
    answer: &mut Answer,
    items: &mut List<Placed>,
    trees: &Trees,
    names: &str,
) {
    for name in names.split_whitespace() {
        if let Some(tree) = trees.named(answer, name) {
            let path = tree.stored_path(answer);
            push_file(answer, items, &path, tree.spelling.as_slice());
        }
    }
}

fn item_of(answer: &mut Answer, row: Fields) -> Item {
    if row.is_set("folder") {
        return Item::Folder;
    }
    if row.is_set("odd") {
        return Item::Odd;
    }
    if let Some(target) = row.text("link") {
        let target = answer.text(target);
        return Item::Link { target };
    }
    let exec = row.is_set("exec");
    let bytes = contents(answer, row);
    Item::File { exec, bytes }
}

fn contents(answer: &mut Answer, row: Fields) -> Bytes {
    let mut bytes = answer.bytes(b"");
    for number in row.list("bytes") {
        let byte = u8::try_from(number.as_integer().unwrap_or(0)).unwrap_or(0);
        answer.done(bytes.append(&[byte]));
    }
    if !row.has("bytes") {
        let text = row.text_or_empty("text");
        for _ in 0..row.number("times").unwrap_or(1) {
            answer.done(bytes.append(text.as_bytes()));
        }
    }
    bytes
}

/// What a child of a program does.
pub(crate) fn play(answer: &mut Answer, trees: &Trees, row: Fields) -> Play {
    let mut play = Play {
        program: answer.text(row.text_or_empty("program")),
        end: End {
            code: code(row),
            side: answer.bytes(row.text_or_empty("side").as_bytes()),
        },
        removes: List::new(answer.alloc),
        leaves: List::new(answer.alloc),
    };
    push_paths(answer, &mut play.removes, row.list("removes"));
    push_trees(answer, &mut play.leaves, trees, row);
    push_files(answer, &mut play.leaves, "", row.list("leaves"));
    play
}

fn code(row: Fields) -> Option<i32> {
    match row.number("code") {
        Some(code) => i32::try_from(code).ok(),
        None => None,
    }
}

fn push_paths(answer: &mut Answer, paths: &mut List<Path>, texts: &[Value]) {
    for text in texts {
        if let Some(path) = path_of(answer, text_of(text)) {
            answer.done(paths.push(path));
        }
    }
}

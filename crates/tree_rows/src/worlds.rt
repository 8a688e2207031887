// Worlds in memory, and trees that are read from them.
use crate::reading::{push_item, push_items, text_or_none};
use cnb_world::{Item, List, MemWorld, Placed};
use row_files::{Answer, Row};
use tree_canon::Tree;
use tree_store::read_tree;

fn world_with(answer: &mut Answer, items: List<Placed>, fails: &str) -> Option<MemWorld> {
    let fails = answer.numbers(fails);
    let plays = List::new(answer.alloc);
    answer.made(MemWorld::new(answer.alloc, items, plays, fails))
}

/// The world of a row: the items of `world`, the texts that are given under paths, and the calls that fail.
pub(crate) fn world_of(answer: &mut Answer, row: &Row) -> Option<MemWorld> {
    world_over(answer, row, "")
}

/// The same, with a folder at `/t`.
pub(crate) fn world_with_folder(answer: &mut Answer, row: &Row) -> Option<MemWorld> {
    world_over(answer, row, "folder /t")
}

// The world of a row, over the items of these lines.
fn world_over(answer: &mut Answer, row: &Row, lines: &str) -> Option<MemWorld> {
    let mut items = List::new(answer.alloc);
    push_items(answer, &mut items, "", lines);
    push_items(answer, &mut items, "", text_or_none(row, "world"));
    push_documents(answer, &mut items, row);
    world_with(answer, items, text_or_none(row, "fails"))
}

fn push_documents(answer: &mut Answer, items: &mut List<Placed>, row: &Row) {
    for (name, text) in &row.given {
        if name.starts_with("/") {
            let bytes = answer.bytes(text.as_bytes());
            push_item(
                answer,
                items,
                &[name.as_str()],
                Item::File { exec: false, bytes },
            );
        }
    }
}

/// The tree of a folder with the items of these lines.
pub(crate) fn tree_of(answer: &mut Answer, lines: &str) -> Option<Tree> {
    let mut items = List::new(answer.alloc);
    push_items(answer, &mut items, "/", "folder t");
    push_items(answer, &mut items, "/t/", lines);
    let path = answer.path("/t")?;
    let mut world = world_with(answer, items, "")?;
    match read_tree(answer.alloc, &mut world, &path) {
        Ok(tree) => Some(tree),
        Err(_) => {
            answer.wrong("no tree:", lines);
            None
        }
    }
}

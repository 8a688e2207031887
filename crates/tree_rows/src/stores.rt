// Calls of tree_store: folders that are read, trees that are laid, and the store at `/s`.
ghost use Rattle.std.specs.Prelude.{◌≤◌, length};

use crate::reading::text_or_none;
use crate::shared::Shared;
use crate::words::{put_damage, put_digest, put_inside, put_tree, yes_or_no};
use crate::worlds::tree_of;
use cnb_world::{FileFault, Path, World};
use row_files::{Answer, Row};
use tree_canon::{Digest, Tree, encode};
use tree_store::{
    StoreFault, check_tree, get, has, lay_stored, put, put_folder, read_tree, write_tree,
};

/// Adds why a call was refused.
pub(crate) fn put_fault(answer: &mut Answer, fault: &StoreFault) {
    match fault {
        StoreFault::OddFile(path) => answer.put_all(&["OddFile ", path.as_str()]),
        StoreFault::Limit(kind) => {
            answer.put("Limit ");
            answer.debug(kind);
        }
        StoreFault::File(path) => answer.put_all(&["File ", path.as_str()]),
        StoreFault::NoTree(digest) => put_digest(answer, "NoTree ", digest),
        StoreFault::Damaged { asked, found, bad } => put_damage(answer, asked, found, *bad),
        StoreFault::Clash { digest } => put_digest(answer, "Clash ", digest),
        StoreFault::Memory => answer.run_out(),
    }
}

fn put_done(answer: &mut Answer, done: &Result<(), StoreFault>) {
    match done {
        Ok(()) => answer.put("done"),
        Err(fault) => put_fault(answer, fault),
    }
}

fn put_truth(answer: &mut Answer, truth: &Result<bool, StoreFault>) {
    match truth {
        Ok(truth) => answer.put(yes_or_no(*truth)),
        Err(fault) => put_fault(answer, fault),
    }
}

fn put_stored(answer: &mut Answer, digest: &Result<Digest, StoreFault>) {
    match digest {
        Ok(digest) => put_digest(answer, "digest ", digest),
        Err(fault) => put_fault(answer, fault),
    }
}

fn put_read(answer: &mut Answer, tree: &Result<Tree, StoreFault>) {
    match tree {
        Ok(tree) => {
            answer.put("a tree\n");
            put_tree(answer, tree);
        }
        Err(fault) => put_fault(answer, fault),
    }
}

/// Adds what is in a folder that was read, as trees.
pub(crate) fn put_laid(answer: &mut Answer, folder: &Result<Tree, StoreFault>) {
    match folder {
        Ok(folder) => {
            answer.put("a tree\n");
            put_inside(answer, folder);
        }
        Err(fault) => put_fault(answer, fault),
    }
}

// A tree that is too long to be read, by its digest.
fn put_spelling(answer: &mut Answer, tree: &Result<Tree, StoreFault>) {
    match tree {
        Ok(tree) => {
            if let Some(digest) = digest_of(answer, tree) {
                put_digest(answer, "digest ", &digest);
            }
        }
        Err(fault) => put_fault(answer, fault),
    }
}

fn digest_of(answer: &mut Answer, tree: &Tree) -> Option<Digest> {
    answer.made(Digest::of_tree(answer.alloc, tree))
}

// A call on the tree of a row in the store.
fn in_store(
    answer: &mut Answer,
    world: &mut Shared,
    store: &Path,
    tree: &Tree,
    digest: &Digest,
    call: &str,
)
    requires { length store.now ≤ 4096 }
{
    let alloc = answer.alloc;
    match call {
        "has" => put_truth(answer, &has(alloc, world, store, digest)),
        "get" => put_read(answer, &get(alloc, world, store, digest)),
        "get_digest" => put_spelling(answer, &get(alloc, world, store, digest)),
        "put" => put_stored(answer, &put(alloc, world, store, tree)),
        "check_tree" => put_done(answer, &check_tree(alloc, world, store, digest)),
        _ => answer.wrong("no such call:", call),
    }
}

// A call on a folder.
fn at_path(answer: &mut Answer, world: &mut Shared, store: &Path, call: &str, path: &str)
    requires { length store.now ≤ 4096 }
{
    let Some(path) = answer.path(path) else {
        return;
    };
    match call {
        "read_tree" => put_read(answer, &read_tree(answer.alloc, world, &path)),
        "put_folder" => put_stored(answer, &put_folder(answer.alloc, world, store, &path)),
        _ => answer.wrong("no such call:", call),
    }
}

// Lays the tree of a row at a place under a root, from the store unless it is only written.
fn lay(
    answer: &mut Answer,
    world: &mut Shared,
    store: &Path,
    tree: Option<&Tree>,
    digest: &Digest,
    places: (&str, &str),
)
    requires { length store.now ≤ 4096 }
{
    let (Some(root), Some(place)) = (answer.path(places.0), answer.path(places.1)) else {
        return;
    };
    let done = match tree {
        Some(tree) => write_tree(answer.alloc, world, &root, &place, tree),
        None => lay_stored(answer.alloc, world, store, digest, &root, &place),
    };
    put_done(answer, &done);
}

// Writes a file anew.
fn rewrite(world: &mut Shared, path: &Path, bytes: &[u8]) -> Result<(), FileFault> {
    world.create(path, false)?;
    world.append(path, bytes)
}

// What a call on the tree of a row comes to, in a text of its own.
fn comes_to(
    answer: &mut Answer,
    world: &mut Shared,
    store: &Path,
    tree: &Tree,
    digest: &Digest,
    call: &str,
) -> String
    requires { length store.now ≤ 4096 }
{
    let mut found = Answer::new(answer.alloc);
    in_store(&mut found, world, store, tree, digest, call);
    answer.taken(found)
}

// What is said of these bytes where they are kept under a digest.
fn damage_of(answer: &mut Answer, asked: &Digest, bytes: &[u8]) -> String {
    let mut wanted = Answer::new(answer.alloc);
    put_damage(&mut wanted, asked, &Digest::of(bytes), None);
    answer.taken(wanted)
}

fn tree_file(answer: &mut Answer, digest: &Digest) -> Option<Path> {
    let mut path = Answer::new(answer.alloc);
    put_digest(&mut path, "/s/trees/", digest);
    let path = answer.taken(path);
    answer.path(path.as_str())
}

// Whether a call over the first bytes of the tree's file says that they are damaged, or else what it comes to.
fn is_damaged(
    answer: &mut Answer,
    world: &mut Shared,
    store: &Path,
    tree: &Tree,
    digest: &Digest,
    given: (&str, &[u8]),
) -> bool
    requires { length store.now ≤ 4096 }
{
    let (call, part) = given;
    let found = comes_to(answer, world, store, tree, digest, call);
    let wanted = damage_of(answer, digest, part);
    let is_damage = found.as_str() == wanted.as_str();
    if !is_damage {
        answer.put("of ");
        answer.show(&part.len());
        answer.put_all(&[" bytes ", found.as_str()]);
    }
    is_damage
}

// A call over each proper prefix of the tree's file: how many are damaged, or what the first comes to that isn't.
fn over_prefixes(
    answer: &mut Answer,
    world: &mut Shared,
    store: &Path,
    tree: &Tree,
    digest: &Digest,
    call: &str,
)
    requires { length store.now ≤ 4096 }
{
    let (whole, path) = (
        answer.made(encode(answer.alloc, tree)),
        tree_file(answer, digest),
    );
    let (Some(whole), Some(path)) = (whole, path) else {
        return;
    };
    let whole = whole.as_slice();
    for length in 0..whole.len() {
        let part = &whole[..length];
        if rewrite(world, &path, part).is_err() {
            answer.wrong("no such file:", path.as_str());
            return;
        }
        if !is_damaged(answer, world, store, tree, digest, (call, part)) {
            return;
        }
    }
    answer.put("damaged, ");
    answer.show(&whole.len());
    answer.put(" of them");
}

fn call_once(
    answer: &mut Answer,
    world: &mut Shared,
    store: &Path,
    tree: &Tree,
    digest: &Digest,
    line: &str,
)
    requires { length store.now ≤ 4096 }
{
    match line.split_once(' ') {
        None => in_store(answer, world, store, tree, digest, line),
        Some(("write_tree", place)) => lay(answer, world, store, Some(tree), digest, ("/", place)),
        Some(("lay_stored", place)) => lay(answer, world, store, None, digest, ("/", place)),
        Some(("lay_below", words)) => {
            let places = words.split_once(' ').unwrap_or((words, "/"));
            lay(answer, world, store, None, digest, places);
        }
        Some(("prefixes", call)) => over_prefixes(answer, world, store, tree, digest, call),
        Some((call, path)) => at_path(answer, world, store, call, path),
    }
}

fn call_each(answer: &mut Answer, world: &mut Shared, store: &Path, tree: &Tree, lines: &str)
    requires { length store.now ≤ 4096 }
{
    let Some(digest) = digest_of(answer, tree) else {
        return;
    };
    for line in lines.lines() {
        answer.put_all(&[line, ": "]);
        call_once(answer, world, store, tree, &digest, line);
        answer.put("\n");
    }
}

/// What calls answer, one after another in one world.
pub(crate) fn called_in_turn(answer: &mut Answer, row: &Row) {
    let (tree, lines) = (
        tree_of(answer, text_or_none(row, "tree")),
        answer.given(row, "calls"),
    );
    let (world, store) = (Shared::of(answer, row), answer.path("/s"));
    if let (Some(tree), Some(mut world), Some(store)) = (tree, world, store) {
        call_each(answer, &mut world, &store, &tree, lines);
    }
}

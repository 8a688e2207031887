// Calls of shelf_set: trees that are restored from caches, rows that are gathered, and layers that are stored.
ghost use Rattle.std.specs.Prelude.{◌≡◌, ◌≤◌, IfOk, IfSome, IsTrue, false, length};
ghost use Rattle.std.specs.List.{AllByRecursion};
ghost use Rattle.std.proofs.Props.{props};
ghost use Rattle.cnb_world.specs.Path.{is_path};
ghost use Rattle.cnb_world.specs.Tree.{is_root};
ghost use Rattle.shelf_set.specs.Caching.{IsShort};

use crate::reading::{bytes_given, cut};
use crate::stores::{put_fault, put_laid};
use crate::watched::{Marks, Watched};
use crate::words::{put_bytes, put_damage};
use crate::worlds::world_with_folder;
use cnb_toml::{BpId, LayerName, Meta};
use cnb_world::{Bytes, Held, List, MemShelf, MemWorld, Memory, Path, PathFault};
use image_docs::{CacheDoc, LayerRow, write_cache};
use layer_flags::Flags;
use row_files::{Answer, Row};
use shelf_set::{Found, Shelves, gather, restore_tree, store_all};
use std::alloc::Global;
use std::cell::Cell;
use std::rc::Rc;
use tree_canon::{Digest, Tree, decode, encode};
use tree_store::{read_tree, write_tree};

/// Caches, and the numbers of those that stand.
#[derive(Drop)]
struct Caches {
    shelves: Shelves,
    places: List<u32>,
    ghost standing: { length places ≤ length shelves.items },
}

/// Layers with their folders.
#[derive(Drop)]
struct Layers {
    rows: CacheDoc,
    folders: List<Path>,
    ghost matched: { length folders ≡ length rows },
    ghost short: { AllByRecursion IsShort folders } by { Prim.hlevel props },
}

fn digest_given(answer: &mut Answer, row: &Row, name: &str) -> Digest {
    let bytes = bytes_given(answer, row, name);
    Digest::of(bytes.as_slice())
}

// The bytes of a name: under their own digest, or after a slash under that of others.
fn held_of(answer: &mut Answer, row: &Row, names: &str) -> Held {
    let (name, under) = names.split_once('/').unwrap_or((names, names));
    let digest = digest_given(answer, row, under);
    let bytes = bytes_given(answer, row, name);
    Held {
        digest: *digest.bytes(),
        bytes,
    }
}

// What a cache in memory is made of.
#[derive(Drop)]
struct Parts {
    rows: Bytes,
    held: List<Held>,
    fails: List<u64>,
}

fn shelf_of(answer: &mut Answer, row: &Row, line: &str) -> Option<MemShelf> {
    let mut parts = Parts {
        rows: answer.bytes(b""),
        held: List::new(answer.alloc),
        fails: List::new(answer.alloc),
    };
    for word in line.split_whitespace() {
        add_part(answer, row, word, &mut parts);
    }
    let Parts { rows, held, fails } = parts;
    answer.made(MemShelf::new(answer.alloc, rows, held, fails))
}

fn add_part(answer: &mut Answer, row: &Row, word: &str, parts: &mut Parts) {
    let (kind, name) = word.split_once('=').unwrap_or((word, ""));
    match kind {
        "shelf" => {}
        "rows" => parts.rows = rows_of(answer, row, name),
        "holds" => {
            let held = held_of(answer, row, name);
            answer.done(parts.held.push(held));
        }
        "fails" => {
            let number = answer.number(name);
            answer.done(parts.fails.push(number));
        }
        _ => answer.wrong("no shelf:", word),
    }
}

fn rows_of(answer: &mut Answer, row: &Row, name: &str) -> Bytes {
    let text = answer.given(row, name);
    answer.bytes(text.as_bytes())
}

// The path that a text is.
fn path_of(alloc: Global, text: &str) -> Result<Path, Memory>
    requires { IsTrue (is_path text.now) }
    ensures { IfOk result (λ path. path ≡ text.now) }
{
    match Path::parse(alloc, text) {
        Ok(path) => Ok(path),
        Err(PathFault::Memory) => Err(Memory),
        Err(PathFault::NotPath) => unreachable!(),
    }
}

// Restores a tree at `/t/x`, in the row's world, which is made anew.
fn put_find(answer: &mut Answer, row: &Row, caches: &mut Caches, digest: &Digest) {
    let (alloc, world) = (answer.alloc, world_with_folder(answer, row));
    let (Some(mut world), Ok(folder), Ok(place)) = (
        world,
        path_of(alloc, "/t"),
        path_of(alloc, "/t/x"),
    ) else {
        answer.run_out();
        return;
    };
    let search = restore_tree(
        alloc,
        &mut world,
        &mut caches.shelves,
        &mut caches.places,
        digest,
        &place,
    );
    match &search {
        Ok(search) => {
            put_found(answer, &mut world, &folder, &search.found);
            put_numbers(answer, "\ngone ", search.gone.as_slice());
        }
        Err(fault) => put_fault(answer, fault),
    }
}

// Adds what was found. A tree is read from the folder that it was laid in.
fn put_found(answer: &mut Answer, world: &mut MemWorld, folder: &Path, found: &Found)
    requires { length folder.now ≤ 8192 }
{
    match found {
        Found::Laid => put_laid(answer, &read_tree(answer.alloc, world, folder)),
        Found::None => answer.put("none"),
        Found::Damaged { asked, found, bad } => put_damage(answer, asked, found, *bad),
    }
}

fn put_numbers(answer: &mut Answer, word: &str, numbers: &[u32]) {
    answer.put(word);
    answer.debug(&numbers);
}

fn put_gather(answer: &mut Answer, caches: &mut Caches) {
    let gathered = gather(answer.alloc, &mut caches.shelves, &mut caches.places);
    if let Some(gathered) = answer.made(gathered) {
        put_rows(answer, &gathered.rows);
        put_numbers(answer, "unread ", gathered.unread.as_slice());
        put_numbers(answer, "\ngone ", gathered.gone.as_slice());
    }
}

fn put_rows(answer: &mut Answer, rows: &CacheDoc) {
    answer.put("rows\n");
    if let Some(bytes) = answer.made(write_cache(answer.alloc, rows)) {
        put_bytes(answer, bytes.as_slice());
    }
}

fn tree_given(answer: &mut Answer, row: &Row, name: &str) -> Option<Tree> {
    let bytes = bytes_given(answer, row, name);
    match decode(answer.alloc, bytes.as_slice()) {
        Ok(tree) => Some(tree),
        Err(_) => {
            answer.wrong("no tree:", name);
            None
        }
    }
}

fn digest_of(alloc: Global, tree: &Tree) -> Result<Digest, Memory> {
    let bytes = encode(alloc, tree)?;
    Ok(Digest::of(bytes.as_slice()))
}

fn is_root(path: &Path) -> bool
    ensures { result ≡ is_root path.now }
{
    path.as_str() == "/"
}

// The folder at `/t` where the tree of a name is laid.
fn laid(answer: &mut Answer, world: &mut MemWorld, name: &str, tree: &Tree) -> Option<Path>
    ensures { IfSome result IsShort }
{
    let (place, folder) = (answer.joined(&["/", name]), answer.joined(&["/t/", name]));
    let (root, place) = (answer.path("/t")?, answer.path(&place)?);
    let folder = answer.path(&folder)?;
    if is_root(&folder) {
        answer.wrong("no folder's name:", name);
        return None;
    }
    match write_tree(answer.alloc, world, &root, &place, tree) {
        Ok(()) => Some(folder),
        Err(fault) => {
            put_fault(answer, &fault);
            None
        }
    }
}

// A layer that is cached.
fn layer_of(answer: &mut Answer, layer: &str, digest: Digest) -> Option<LayerRow> {
    let (id, name) = layer.split_once(':').unwrap_or((layer, ""));
    let (Ok(id), Ok(layer)) = (
        BpId::parse(answer.alloc, id),
        LayerName::parse(answer.alloc, name),
    ) else {
        answer.wrong("no layer:", layer);
        return None;
    };
    let mut flags = Flags::default();
    flags.cache = true;
    let meta = Meta::Table(List::new(answer.alloc));
    Some(LayerRow {
        id,
        layer,
        flags,
        meta,
        digest,
    })
}

fn with_layer(
    answer: &mut Answer,
    row: &Row,
    world: &mut MemWorld,
    layers: Layers,
    word: &str,
) -> Option<Layers> {
    let (layer, name) = word.split_once('=').unwrap_or((word, ""));
    let tree = tree_given(answer, row, name)?;
    let Ok(digest) = digest_of(answer.alloc, &tree) else {
        answer.run_out();
        return None;
    };
    let folder = laid(answer, world, name, &tree)?;
    let layer = layer_of(answer, layer, digest)?;
    answer.made(joined(layers, layer, folder))
}

#[tactic(auto, using(shelf_set::proofs::Lists::all_both))]
fn joined(layers: Layers, layer: LayerRow, folder: Path) -> Result<Layers, Memory>
    requires { IsShort folder }
{
    let Layers {
        mut rows,
        mut folders,
    } = layers;
    rows.push(layer)?;
    folders.push(folder)?;
    Ok(Layers { rows, folders })
}

fn no_layers(alloc: Global) -> Layers {
    Layers {
        rows: List::new(alloc),
        folders: List::new(alloc),
    }
}

fn layers_of(answer: &mut Answer, row: &Row, world: &mut MemWorld, words: &str) -> Option<Layers> {
    let mut layers = no_layers(answer.alloc);
    for word in words.split_whitespace() {
        layers = with_layer(answer, row, world, layers, word)?;
    }
    Some(layers)
}

// Stores layers, whose trees are laid below `/t` in the row's world, which is made anew.
fn put_store(answer: &mut Answer, row: &Row, caches: &mut Caches, words: &str) {
    let Some(mut world) = world_with_folder(answer, row) else {
        return;
    };
    let Some(layers) = layers_of(answer, row, &mut world, words) else {
        return;
    };
    let gone = store_all(
        answer.alloc,
        &mut world,
        &mut caches.shelves,
        &mut caches.places,
        &layers.rows,
        &layers.folders,
    );
    match &gone {
        Ok(gone) => put_numbers(answer, "gone ", gone.as_slice()),
        Err(fault) => put_fault(answer, fault),
    }
}

// Shortens the list to the caches that stand.
fn shorten(caches: &mut Caches) {
    caches.shelves.truncate(caches.places.as_slice().len());
}

fn call_once(answer: &mut Answer, row: &Row, caches: &mut Caches, line: &str) {
    let (call, words) = cut(line);
    match call {
        "find" => {
            let digest = digest_given(answer, row, words);
            put_find(answer, row, caches, &digest);
        }
        "gather" => put_gather(answer, caches),
        "store_all" => put_store(answer, row, caches, words),
        "shorten" => {
            shorten(caches);
            answer.put("done");
        }
        _ => answer.wrong("no such call:", line),
    }
}

// Adds what each call answers, which caches stand then, and how often each cache was called and ended then.
fn call_each(answer: &mut Answer, row: &Row, caches: &mut Caches, marks: &[Rc<Marks>]) {
    let lines = answer.given(row, "calls");
    for line in lines.lines() {
        answer.put_all(&[line, ": "]);
        call_once(answer, row, caches, line);
        put_numbers(answer, "\nstand ", caches.places.as_slice());
        answer.put("\n");
    }
    put_marks(answer, marks);
}

fn put_marks(answer: &mut Answer, all: &[Rc<Marks>]) {
    for marks in all {
        answer.put("called ");
        answer.show(&marks.calls.get());
        answer.put(", ended ");
        answer.show(&marks.ends.get());
        answer.put("\n");
    }
}

// A cache whose marks are added to all.
fn watch(alloc: Global, shelf: MemShelf, all: &mut Vec<Rc<Marks>>) -> Result<Watched, Memory> {
    let (calls, ends) = (Cell::new(0), Cell::new(0));
    let marks = Rc::new(alloc, Marks { calls, ends })?;
    all.push(marks.clone()?)?;
    Ok(Watched { shelf, marks })
}

fn push_watched(
    answer: &mut Answer,
    shelf: MemShelf,
    all: &mut Vec<Rc<Marks>>,
    watched: &mut List<Watched>,
) {
    if let Some(shelf) = answer.made(watch(answer.alloc, shelf, all)) {
        answer.done(watched.push(shelf));
    }
}

// The caches of a row, in order, whose marks are added.
fn watched_of(answer: &mut Answer, row: &Row, all: &mut Vec<Rc<Marks>>) -> List<Watched> {
    let mut watched = List::new(answer.alloc);
    let lines = answer.given(row, "shelves");
    for line in lines.lines() {
        if let Some(shelf) = shelf_of(answer, row, line) {
            push_watched(answer, shelf, all, &mut watched);
        }
    }
    watched
}

// Calls over these caches.
fn call_over(
    answer: &mut Answer,
    row: &Row,
    watched: List<Watched>,
    marks: &[Rc<Marks>],
) -> Result<(), Memory> {
    let mut shelves: Shelves = Vec::new(answer.alloc);
    let mut places = List::new(answer.alloc);
    for (number, shelf) in (0..u32::MAX).zip(watched.into_vec()) {
        shelves.push(Box::new(answer.alloc, shelf)?)?;
        places.push(number)?;
    }
    if places.as_slice().len() > shelves.len() {
        answer.wrong("more numbers than", "shelves");
        return Ok(());
    }
    call_each(answer, row, &mut Caches { shelves, places }, marks);
    Ok(())
}

/// What calls answer, one after another over the caches of a row, which of these stand then, and how often each was
/// called and ended.
pub(crate) fn called_in_turn(answer: &mut Answer, row: &Row) {
    let mut marks = Vec::new(answer.alloc);
    let watched = watched_of(answer, row, &mut marks);
    let done = call_over(answer, row, watched, &marks);
    answer.done(done);
}

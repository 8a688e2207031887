// Calls of tree_canon: spellings, trees, digests, and bytes kept under digests.
ghost use Rattle.std.specs.Prelude.{◌<◌};

use crate::reading::{bytes_given, bytes_of, item_of, text_or_none};
use crate::words::{put_damage, put_digest, put_tree, yes_or_no};
use cnb_world::{Bytes, Item, List, Memory};
use row_files::{Answer, Row};
use std::alloc::Global;
use tree_canon::{
    DecodeFault, Decoder, Digest, Event, Judged, Named, Node, Scan, Tree, TreeFault, decode,
    encode, is_target, judge,
};

fn put_fault(answer: &mut Answer, fault: &DecodeFault) {
    match fault {
        DecodeFault::Bad { at, reason } => {
            answer.put("Bad at ");
            answer.show(at);
            answer.put(": ");
            answer.debug(reason);
        }
        DecodeFault::Memory => answer.run_out(),
    }
}

fn put_end(answer: &mut Answer, word: &str, end: &Result<(), DecodeFault>) {
    match end {
        Ok(()) => answer.put(word),
        Err(fault) => put_fault(answer, fault),
    }
}

// The spelling of a tree's copy.
fn spelled(alloc: Global, tree: &Tree) -> Result<Bytes, Memory> {
    encode(alloc, &tree.copy(alloc)?)
}

fn put_tree_digest(answer: &mut Answer, tree: &Tree) {
    if let Some(digest) = answer.made(Digest::of_tree(answer.alloc, tree)) {
        put_digest(answer, "tree ", &digest);
    }
}

// Adds a tree that was read from bytes, or its digest, and whether they spell its copy.
fn put_read(answer: &mut Answer, shown: &str, tree: &Tree, bytes: &[u8]) {
    let Some(again) = answer.made(spelled(answer.alloc, tree)) else {
        return;
    };
    match shown {
        "digest" => put_tree_digest(answer, tree),
        _ => put_tree(answer, tree),
    }
    answer.put("\nspelled so again: ");
    answer.put(yes_or_no(again.as_slice() == bytes));
}

fn put_decoded(answer: &mut Answer, shown: &str, bytes: &[u8], read: &Result<Tree, DecodeFault>) {
    match read {
        Ok(tree) => put_read(answer, shown, tree, bytes),
        Err(fault) => put_fault(answer, fault),
    }
}

fn words_of(
    answer: &mut Answer,
    shown: &str,
    bytes: &[u8],
    read: &Result<Tree, DecodeFault>,
) -> String {
    let mut words = Answer::new(answer.alloc);
    put_decoded(&mut words, shown, bytes, read);
    answer.taken(words)
}

fn fed_by(alloc: Global, bytes: &[u8], size: usize) -> Result<Tree, DecodeFault>
    requires { 0 < size }
{
    let mut decoder = Decoder::new(alloc)?;
    for piece in bytes.chunks(size) {
        decoder.feed(piece)?;
    }
    decoder.finish()
}

/// What bytes spell: decoded at once, fed whole, and fed in pieces of one byte.
pub(crate) fn decoded(answer: &mut Answer, row: &Row) {
    let (alloc, shown) = (answer.alloc, text_or_none(row, "shown"));
    let bytes = bytes_given(answer, row, "bytes");
    let bytes = bytes.as_slice();
    let once = words_of(answer, shown, bytes, &decode(alloc, bytes));
    let whole = words_of(answer, shown, bytes, &fed_by(alloc, bytes, 4096));
    let pieces = words_of(answer, shown, bytes, &fed_by(alloc, bytes, 1));
    answer.put(once.as_str());
    put_other(answer, "\nwhole ", once.as_str(), whole.as_str());
    put_other(answer, "\nin pieces ", once.as_str(), pieces.as_str());
}

// Adds what differs from what came at once.
fn put_other(answer: &mut Answer, word: &str, once: &str, other: &str) {
    if once != other {
        answer.put_all(&[word, other]);
    }
}

/// What feeding each piece answers, and then the end.
pub(crate) fn fed(answer: &mut Answer, row: &Row) {
    if let Some(decoder) = answer.made(Decoder::new(answer.alloc)) {
        let pieces = answer.given(row, "pieces");
        feed_all(answer, decoder, pieces);
    }
}

fn feed_all(answer: &mut Answer, decoder: Decoder, pieces: &str) {
    let mut decoder = decoder;
    let mut all = answer.bytes(b"");
    for line in pieces.lines() {
        let piece = bytes_of(answer, line);
        answer.done(all.append(piece.as_slice()));
        put_end(answer, "taken", &decoder.feed(piece.as_slice()));
        answer.put("\n");
    }
    put_decoded(answer, "", all.as_slice(), &decoder.finish());
}

/// How many bytes a scan holds at most and at the end, and what it answers, of a node in so many folders that is fed in
/// pieces of one byte. Each folder has one entry, with a name of 255 bytes.
pub(crate) fn scanned(answer: &mut Answer, row: &Row) {
    let mut bytes = bytes_of(answer, "'CNBT 01");
    let folder = bytes_of(answer, "'D 00000001 00FF 255*'a");
    let folders = answer.given(row, "folders");
    for _ in 0..answer.number(folders) {
        answer.done(bytes.append(folder.as_slice()));
    }
    let node = bytes_given(answer, row, "node");
    answer.done(bytes.append(node.as_slice()));
    if let Some(scan) = answer.made(Scan::new(answer.alloc)) {
        put_scan(answer, scan, bytes.as_slice());
    }
}

fn put_scan(answer: &mut Answer, scan: Scan, bytes: &[u8]) {
    let (mut scan, mut most) = (scan, 0);
    for piece in bytes.chunks(1) {
        let _ = scan.feed(piece);
        most = most.max(scan.held());
    }
    answer.put("holds ");
    answer.show(&most);
    answer.put(" at most, ");
    answer.show(&scan.held());
    answer.put(" at the end\n");
    put_end(answer, "whole", &scan.finish());
}

/// The events of pieces, and then the end. Each piece is given in as few calls as `size` allows, and told apart by a
/// line `more`.
pub(crate) fn events(answer: &mut Answer, row: &Row) {
    let (size, pieces) = (answer.given(row, "size"), answer.given(row, "pieces"));
    let size = answer.number(size) as usize;
    if let Some(scan) = answer.made(Scan::new(answer.alloc)) {
        put_events(answer, scan, pieces, size.max(1));
    }
}

fn put_events(answer: &mut Answer, scan: Scan, pieces: &str, size: usize)
    requires { 0 < size }
{
    let mut scan = scan;
    for line in pieces.lines() {
        let piece = bytes_of(answer, line);
        for part in piece.as_slice().chunks(size) {
            put_steps(answer, &mut scan, part);
        }
        answer.put("more\n");
    }
    put_end(answer, "whole", &scan.finish());
}

// Adds the events of bytes, or the fault that they end in.
fn put_steps(answer: &mut Answer, scan: &mut Scan, bytes: &[u8]) {
    let mut rest = bytes;
    for _ in 0..4096 {
        if rest.len() > 65536 {
            answer.wrong("too long:", "a piece");
            return;
        }
        match scan.next(rest) {
            Ok(step) => {
                if let Event::More = &step.event {
                    return;
                }
                put_event(answer, &step.event);
                rest = &rest[step.used as usize..];
            }
            Err(fault) => {
                put_fault(answer, &fault);
                answer.put("\n");
                return;
            }
        }
    }
}

fn put_event(answer: &mut Answer, event: &Event) {
    match event {
        Event::Open { count } => put_number(answer, "open ", *count as u64),
        Event::Name(name) => answer.put_all(&["name ", name.as_str()]),
        Event::File { exec, len } => {
            put_number(answer, "file ", *len);
            answer.put(if *exec { " [exec]" } else { "" });
        }
        Event::Part(count) => put_number(answer, "part ", *count as u64),
        Event::Link(target) => answer.put_all(&["link ", target.as_str()]),
        Event::Close => answer.put("close"),
        Event::More => answer.put("more"),
    }
    answer.put("\n");
}

fn put_number(answer: &mut Answer, word: &str, number: u64) {
    answer.put(word);
    answer.show(&number);
}

fn node_of(answer: &mut Answer, item: Item) -> Node {
    match item {
        Item::Folder => Node::Folder(List::new(answer.alloc)),
        Item::File { exec, bytes } => Node::File { exec, bytes },
        Item::Link { target } => Node::Link { target },
        Item::Odd => {
            answer.wrong("no node:", "odd");
            Node::Folder(List::new(answer.alloc))
        }
    }
}

fn folder_of(answer: &mut Answer, lines: &str) -> Node {
    let mut entries = List::new(answer.alloc);
    for line in lines.lines() {
        let (name, item) = item_of(answer, line);
        let node = node_of(answer, item);
        push_node(answer, &mut entries, name, node);
    }
    Node::Folder(entries)
}

fn push_node(answer: &mut Answer, entries: &mut List<Named>, name: &str, node: Node) {
    let name = answer.text(name);
    answer.done(entries.push(Named { name, node }));
}

fn folder_around(answer: &mut Answer, node: Node) -> Node {
    let mut entries = List::new(answer.alloc);
    push_node(answer, &mut entries, "a", node);
    Node::Folder(entries)
}

/// The tree of a folder with these entries, in so many folders.
pub(crate) fn made(answer: &mut Answer, row: &Row) {
    let (entries, folders) = (answer.given(row, "entries"), answer.given(row, "folders"));
    let mut node = folder_of(answer, entries);
    for _ in 0..answer.number(folders) {
        node = folder_around(answer, node);
    }
    match Tree::new(node) {
        Ok(tree) => put_length(answer, &tree),
        Err(TreeFault::Unfit) => answer.put("Unfit"),
        Err(TreeFault::Memory) => answer.run_out(),
    }
}

fn put_length(answer: &mut Answer, tree: &Tree) {
    if let Some(bytes) = answer.made(encode(answer.alloc, tree)) {
        answer.show(&bytes.as_slice().len());
        answer.put(" bytes");
    }
}

/// Whether bytes are fit to be a link's target.
pub(crate) fn target(answer: &mut Answer, row: &Row) {
    let bytes = bytes_given(answer, row, "bytes");
    answer.put(yes_or_no(is_target(bytes.as_slice())));
}

/// What bytes are that were kept under the digest of others.
pub(crate) fn judged(answer: &mut Answer, row: &Row) {
    let bytes = bytes_given(answer, row, "bytes");
    let kept = bytes_given(answer, row, "kept");
    match &judge(answer.alloc, &Digest::of(kept.as_slice()), bytes.as_slice()) {
        Ok(Judged::Tree(tree)) => put_tree(answer, tree),
        Ok(Judged::Damaged { asked, found, bad }) => put_damage(answer, asked, found, *bad),
        Err(Memory) => answer.run_out(),
    }
}

/// The digest of bytes, and whether it is that of others.
pub(crate) fn digest(answer: &mut Answer, row: &Row) {
    let bytes = bytes_given(answer, row, "bytes");
    let other = bytes_of(answer, text_or_none(row, "other"));
    let digest = Digest::of(bytes.as_slice());
    put_digest(answer, "", &digest);
    answer.put("\nsame as the other: ");
    answer.put(yes_or_no(digest.same(&Digest::of(other.as_slice()))));
}

/// The digest that a text is.
pub(crate) fn digest_read(answer: &mut Answer, row: &Row) {
    match Digest::parse(answer.given(row, "text")) {
        Some(digest) => put_digest(answer, "", &Digest::from_bytes(*digest.bytes())),
        None => answer.put("no digest"),
    }
}

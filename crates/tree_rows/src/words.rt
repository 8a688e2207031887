// What answers are in words.
use row_files::Answer;
use std::str;
use tree_canon::{Digest, Named, Node, Reason, Tree};

/// The word for a truth.
pub(crate) fn yes_or_no(truth: bool) -> &'static str {
    if truth { "yes" } else { "no" }
}

/// Adds the text that bytes are, and else their hexadecimal digits.
pub(crate) fn put_bytes(answer: &mut Answer, bytes: &[u8]) {
    match str::from_utf8(bytes) {
        Ok(text) => answer.put(text),
        Err(_) => {
            answer.put("bytes ");
            put_digits(answer, bytes);
        }
    }
}

fn put_digits(answer: &mut Answer, bytes: &[u8]) {
    match hex::encode(answer.alloc, bytes) {
        Ok(digits) => answer.put(digits.as_str()),
        Err(_) => answer.run_out(),
    }
}

/// Adds a word and a digest.
pub(crate) fn put_digest(answer: &mut Answer, word: &str, digest: &Digest) {
    answer.put(word);
    answer.put_made(digest.text(answer.alloc));
}

/// Adds what is told of damaged bytes: the digest that they were kept under, their own, and why they spell no tree.
pub(crate) fn put_damage(answer: &mut Answer, asked: &Digest, found: &Digest, bad: Option<Reason>) {
    put_digest(answer, "Damaged asked ", asked);
    put_digest(answer, "\nfound ", found);
    if let Some(reason) = bad {
        answer.put("\n");
        answer.debug(&reason);
    }
}

/// Adds a tree, an entry a line. Its root is `.`.
pub(crate) fn put_tree(answer: &mut Answer, tree: &Tree) {
    put_node(answer, ".", tree.node());
}

/// Adds what is in a folder, each as a tree.
pub(crate) fn put_inside(answer: &mut Answer, folder: &Tree) {
    if let Node::Folder(entries) = folder.node() {
        for entry in entries.as_slice() {
            put_node(answer, ".", &entry.node);
        }
    }
}

fn put_contents(answer: &mut Answer, bytes: &[u8]) {
    if !bytes.is_empty() {
        answer.put(" ");
        put_bytes(answer, bytes);
    }
}

#[cycle(words)]
fn put_node(answer: &mut Answer, path: &str, node: &Node) {
    match node {
        Node::Folder(entries) => {
            answer.put_all(&["folder ", path]);
            put_entries(answer, path, entries.as_slice());
        }
        Node::File { exec, bytes } => {
            answer.put_all(&["file ", path, if *exec { " [exec]" } else { "" }]);
            put_contents(answer, bytes.as_slice());
        }
        Node::Link { target } => answer.put_all(&["link ", path, " -> ", target.as_str()]),
    }
}

#[cycle(words)]
fn put_entries(answer: &mut Answer, folder: &str, entries: &[Named]) {
    for entry in entries {
        answer.put("\n");
        let path = path_in(answer, folder, entry.name.as_str());
        put_node(answer, path.as_str(), &entry.node);
    }
}

fn path_in(answer: &mut Answer, folder: &str, name: &str) -> String {
    match folder {
        "." => answer.joined(&[name]),
        _ => answer.joined(&[folder, "/", name]),
    }
}

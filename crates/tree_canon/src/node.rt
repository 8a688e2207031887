// The nodes of a tree.
use cnb_world::{Bytes, List, Text};

/// A node of a tree. `exec` says whether anyone may execute the file.
#[cycle(node)]
#[derive(Drop)]
pub enum Node {
    Folder(List<Named>),
    File { exec: bool, bytes: Bytes },
    Link { target: Text },
}

/// An entry of a folder.
#[cycle(node)]
#[derive(Drop)]
pub struct Named {
    pub name: Text,
    pub node: Node,
}

// What stands in a world.
use crate::taking::{fail_files, found, path_of};
use cnb_world::{Bytes, Kind, List, MemWorld, Path, Placed, World};
use row_files::Answer;
use std::collections::BTreeMap;

/// What stands at a path: the word for its kind, and the bytes of a file or of a link's target.
#[derive(Drop)]
pub struct Found {
    pub kind: &'static str,
    pub bytes: Bytes,
}

/// All that stands in a world but its root, by path.
#[derive(Drop)]
pub struct Standing {
    pub found: BTreeMap<String, Found>,
}

impl Standing {
    pub(crate) fn of(answer: &mut Answer, world: &mut MemWorld) -> Standing {
        let mut standing = Standing {
            found: BTreeMap::new(answer.alloc),
        };
        if let Some(root) = path_of(answer, "/") {
            standing.add_all(answer, world, root);
        }
        standing
    }

    /// What stands in a world where these items are placed.
    pub(crate) fn of_items(answer: &mut Answer, items: List<Placed>) -> Option<Standing> {
        let (plays, failing) = (List::new(answer.alloc), List::new(answer.alloc));
        let mut world = answer.made(MemWorld::new(answer.alloc, items, plays, failing))?;
        Some(Standing::of(answer, &mut world))
    }

    // Adds what stands in a folder, in the folders in it, and so on.
    fn add_all(&mut self, answer: &mut Answer, world: &mut MemWorld, folder: Path) {
        let mut folders = Vec::new(answer.alloc);
        push_folder(answer, &mut folders, folder);
        for _ in 0..u64::MAX {
            let Some(folder) = folders.pop() else {
                break;
            };
            self.add_folder(answer, world, &folder, &mut folders);
        }
    }

    // Adds what stands in a folder; the folders in it are to follow.
    fn add_folder(
        &mut self,
        answer: &mut Answer,
        world: &mut MemWorld,
        folder: &Path,
        folders: &mut Vec<Path>,
    ) {
        if let Some(names) = found(answer, world.list(folder)) {
            for name in names.as_slice() {
                match folder.join(answer.alloc, name.as_str()) {
                    Ok(path) => self.add(answer, world, path, folders),
                    Err(_) => fail_files(answer),
                }
            }
        }
    }

    fn add(
        &mut self,
        answer: &mut Answer,
        world: &mut MemWorld,
        path: Path,
        folders: &mut Vec<Path>,
    ) {
        if let Some(kind) = found(answer, world.kind(&path)) {
            let mut bytes = answer.bytes(b"");
            put_contents(answer, &mut bytes, world, &path, kind);
            let kind = kind_word(kind);
            let text = answer.joined(&[path.as_str()]);
            if self.found.insert(text, Found { kind, bytes }).is_err() {
                answer.run_out();
            }
            if kind == "folder" {
                push_folder(answer, folders, path);
            }
        }
    }

    /// The word for the kind of what stands at a path.
    pub(crate) fn kind(&self, path: &str) -> &'static str {
        match self.found.get(path) {
            Some(found) => found.kind,
            None => "absent",
        }
    }

    /// The bytes of the file, or of the link's target, at a path.
    pub(crate) fn bytes(&self, path: &str) -> &[u8] {
        match self.found.get(path) {
            Some(found) => found.bytes.as_slice(),
            None => &[],
        }
    }

    /// The bytes of the file at a path.
    pub(crate) fn file(&self, path: &str) -> Option<&[u8]> {
        match self.kind(path) {
            "file" | "executable" => Some(self.bytes(path)),
            _ => None,
        }
    }

    /// Adds the text of the file at a path, with a mark in place of what is no UTF-8, or `no file`.
    pub(crate) fn put_text(&self, text: &mut Answer, path: &str) {
        match self.file(path) {
            Some(bytes) => text.put_lossy(bytes),
            None => text.put("no file"),
        }
    }

    /// Whether the very same stands at a path in both.
    pub(crate) fn is_equal_at(&self, other: &Standing, path: &str) -> bool {
        self.kind(path) == other.kind(path) && self.bytes(path) == other.bytes(path)
    }

    /// Whether the same stands at a path in both. What is absent and a folder count as the same.
    pub(crate) fn is_same_at(&self, other: &Standing, path: &str) -> bool {
        self.is_equal_at(other, path) || (self.is_open_at(path) && other.is_open_at(path))
    }

    // Whether nothing but a folder, or nothing, stands at a path.
    fn is_open_at(&self, path: &str) -> bool {
        matches!(self.kind(path), "absent" | "folder")
    }

    /// The paths where something other than a folder stands in either, and not the same.
    pub(crate) fn changed<'a>(&'a self, answer: &mut Answer, after: &'a Standing) -> List<&'a str> {
        let mut changed = List::new(answer.alloc);
        for (path, _) in &self.found {
            if !self.is_same_at(after, path) {
                answer.done(changed.push(path.as_str()));
            }
        }
        for (path, _) in &after.found {
            if !self.found.contains_key(path.as_str()) && !self.is_same_at(after, path) {
                answer.done(changed.push(path.as_str()));
            }
        }
        changed
    }
}

fn push_folder(answer: &mut Answer, folders: &mut Vec<Path>, folder: Path) {
    if folders.push(folder).is_err() {
        answer.run_out();
    }
}

/// Whether a path is a folder's or lies below it.
pub(crate) fn is_in(folder: &str, path: &str) -> bool {
    match path.strip_prefix(folder) {
        Some(rest) => rest.is_empty() || rest.starts_with('/') || folder == "/",
        None => false,
    }
}

fn kind_word(kind: Kind) -> &'static str {
    match kind {
        Kind::Absent => "absent",
        Kind::File { exec: false, .. } => "file",
        Kind::File { exec: true, .. } => "executable",
        Kind::Folder => "folder",
        Kind::Link => "link",
        Kind::Odd => "odd",
    }
}

// Adds the bytes of a file, or of a link's target.
fn put_contents(
    answer: &mut Answer,
    bytes: &mut Bytes,
    world: &mut MemWorld,
    path: &Path,
    kind: Kind,
) {
    match kind {
        Kind::File { len, .. } => {
            if let Some(read) = found(answer, world.read(path, 0, len)) {
                answer.done(bytes.append(read.as_slice()));
            }
        }
        Kind::Link => {
            if let Some(target) = found(answer, world.read_link(path)) {
                answer.done(bytes.append(target.as_str().as_bytes()));
            }
        }
        Kind::Absent | Kind::Folder | Kind::Odd => {}
    }
}

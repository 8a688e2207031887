// Writing the tree of a folder as it is read.
ghost use Rattle.std.specs.Prelude.{◌≡◌, ◌≤◌, ◌+◌, ◌*◌, ◌-◌, ◌<◌, ◌%◌, ◌++◌, [], ℕ, Bool, Option, List as Seq, IfErr};
ghost use Rattle.std.specs.Prelude.{IfOk, IfSome, IsTrue, length, vec_len, true};
ghost use Rattle.cnb_world.specs.Calls.{AreNames};
ghost use Rattle.cnb_world.specs.Path.{is_part, joined};
ghost use Rattle.cnb_world.specs.Tree.{Tree, item_at, kind_of};
ghost use Rattle.cnb_world.specs.declared.world.Kind.TheVariants as kind;
ghost use Rattle.tree_canon.specs.Names.{is_name};
ghost use Rattle.tree_canon.specs.Spelling.{limit, file_head, folder_head, link_head, name_bytes};
ghost use Rattle.steps.specs.Outside.{seen};
ghost use Rattle.tree_store.specs.Answers.{is_free};
ghost use Rattle.tree_store.specs.Reading.{in_order, link_of, node_at, node_of, tree_in};
ghost use Rattle.tree_store.specs.Writing.{Added, Adds, AreApart, AreEntriesOf, HasLength, HasWritten, IsNodeOf};
ghost use Rattle.tree_store.specs.Writing.{IsPart, IsRootOf, IsTreeOf, LeavesNew, Refuses, new_path, writer_seen};

use crate::fault::{StoreFault, odd};
use crate::reading::{
    MAX_LEVELS, head_length, kind_at, link_size, listed, room, target_at, too_deep,
};
use crate::store::read_piece;
use crate::target::Target;
use crate::writing::Writer;
use cnb_world::{Kind, Memory, Path, Text, World};
use std::alloc::Global;

// What stands before the nodes of a folder's entries.
fn folder_bytes(alloc: Global, count: usize) -> Result<Vec<u8>, Memory>
    ensures bytes { IfOk result (λ bytes. bytes.items ≡ folder_head (count % 4294967296)) }
    ensures short { IfOk result (λ bytes. vec_len bytes ≤ 65536) }
{
    let mut bytes = Vec::new(alloc);
    bytes.push(b'D')?;
    bytes.extend_from_slice(&((count % 4294967296) as u32).to_be_bytes())?;
    Ok(bytes)
}

// What stands before a file's bytes.
fn file_bytes(alloc: Global, exec: bool, len: u64) -> Result<Vec<u8>, Memory>
    ensures bytes { IfOk result (λ bytes. bytes.items ≡ file_head exec len) }
    ensures short { IfOk result (λ bytes. vec_len bytes ≤ 65536) }
{
    let mut bytes = Vec::new(alloc);
    bytes.push(b'F')?;
    bytes.push(if exec { 1 } else { 0 })?;
    bytes.extend_from_slice(&len.to_be_bytes())?;
    Ok(bytes)
}

// A link.
fn link_bytes(alloc: Global, target: &str) -> Result<Vec<u8>, Memory>
    requires { length target.now ≤ 4096 }
    ensures bytes { IfOk result (λ bytes. bytes.items ≡ link_head (length target.now) ++ target.now) }
    ensures short { IfOk result (λ bytes. vec_len bytes ≤ 65536) }
{
    let mut bytes = Vec::new(alloc);
    bytes.push(b'L')?;
    bytes.extend_from_slice(&(target.len() as u16).to_be_bytes())?;
    bytes.extend_from_slice(target.as_bytes())?;
    Ok(bytes)
}

// The name of an entry, behind its length.
fn name_bytes(alloc: Global, name: &str) -> Result<Vec<u8>, Memory>
    requires { length name.now ≤ 255 }
    ensures bytes { IfOk result (λ bytes. bytes.items ≡ name_bytes name.now) }
    ensures short { IfOk result (λ bytes. vec_len bytes ≤ 65536) }
{
    let mut bytes = Vec::new(alloc);
    bytes.extend_from_slice(&(name.len() as u16).to_be_bytes())?;
    bytes.extend_from_slice(name.as_bytes())?;
    Ok(bytes)
}

// How many bytes are read next.
fn next_size(left: u64) -> u64
    ensures within { result ≤ left }
    ensures piece { result ≤ 65536 }
    ensures some { 0 < left → 0 < result }
    ensures all { result < 65536 → result ≡ left }
{
    if left > 65536 { 65536 } else { left }
}

// The bytes of a file from a place on, as many as are read at once; the place behind them.
fn put_piece<W: World, T: Target>(
    alloc: Global,
    world: &mut W,
    writer: &mut Writer<T>,
    path: &Path,
    len: u64,
    done: u64,
) -> Result<u64, StoreFault>
    requires { done ≤ len }
    ensures within { IfOk result (λ next. next ≤ len) }
    ensures more { IfOk result (λ next. done < len → done < next) }
    ensures leaves { LeavesNew path.now (writer_seen T.state writer.old) (seen W.World world.old) result (writer_seen T.state writer.new)
        (seen W.World world.new) }
    ensures puts { (store : Seq ℕ) (before : Option Tree) (bytes : Seq ℕ)
        → HasWritten store before (writer_seen T.state writer.old) bytes (W.tree world.old) → AreApart (new_path store) path.now
        → IfSome before (λ files. HasLength len (item_at files path.now))
        → Added store before (λ next more. IsPart before path.now done next more)
        (λ fault. IfSome before (λ files. IsTrue (is_free fault))) bytes
        (seen W.World world.old) result (writer_seen T.state writer.new) (seen W.World world.new) }
{
    let piece = read_piece(alloc, world, path, done)?;
    let size = next_size(len - done);
    if piece.as_slice().len() as u64 != size {
        return Err(odd(alloc, path));
    }
    writer.add(alloc, world, piece.as_slice())?;
    Ok(done + size)
}

// Sees that a file has no more bytes. A last piece that is shorter than what is read at once shows that already.
fn put_end<W: World, T: Target>(
    alloc: Global,
    world: &mut W,
    writer: &mut Writer<T>,
    path: &Path,
    len: u64,
) -> Result<(), StoreFault>
    ensures leaves { LeavesNew path.now (writer_seen T.state writer.old) (seen W.World world.old) result (writer_seen T.state writer.new)
        (seen W.World world.new) }
    ensures puts { (store : Seq ℕ) (before : Option Tree) (bytes : Seq ℕ)
        → HasWritten store before (writer_seen T.state writer.old) bytes (W.tree world.old) → AreApart (new_path store) path.now
        → IfSome before (λ files. HasLength len (item_at files path.now))
        → Added store before (λ done more. IsPart before path.now len len more)
        (λ fault. IfSome before (λ files. IsTrue (is_free fault))) bytes
        (seen W.World world.old) result (writer_seen T.state writer.new) (seen W.World world.new) }
{
    if len == 0 || len % 65536 != 0 {
        return Ok(());
    }
    put_piece(alloc, world, writer, path, len, len)?;
    Ok(())
}

// The bytes of a file, so many.
fn put_contents<W: World, T: Target>(
    alloc: Global,
    world: &mut W,
    writer: &mut Writer<T>,
    path: &Path,
    len: u64,
) -> Result<(), StoreFault>
    ensures leaves { LeavesNew path.now (writer_seen T.state writer.old) (seen W.World world.old) result (writer_seen T.state writer.new)
        (seen W.World world.new) }
    ensures puts { (store : Seq ℕ) (before : Option Tree) (bytes : Seq ℕ)
        → HasWritten store before (writer_seen T.state writer.old) bytes (W.tree world.old) → AreApart (new_path store) path.now
        → IfSome before (λ files. HasLength len (item_at files path.now))
        → Added store before (λ done more. IsPart before path.now 0 len more)
        (λ fault. IfSome before (λ files. IsTrue (is_free fault))) bytes
        (seen W.World world.old) result (writer_seen T.state writer.new) (seen W.World world.new) }
{
    let mut done = put_piece(alloc, world, writer, path, len, 0)?;
    while done < len {
        let next = put_piece(alloc, world, writer, path, len, done)?;
        done = next;
    }
    put_end(alloc, world, writer, path, len)
}

// The file at a path.
fn put_file<W: World, T: Target>(
    alloc: Global,
    world: &mut W,
    writer: &mut Writer<T>,
    path: &Path,
    exec: bool,
    len: u64,
    size: u64,
) -> Result<u64, StoreFault>
    requires size { size ≤ 1073742081 }
    requires kind { IfSome (W.tree world.old) (λ files. kind.File exec len ≡ kind_of (item_at files path.now)) }
    ensures leaves { LeavesNew path.now (writer_seen T.state writer.old) (seen W.World world.old) result (writer_seen T.state writer.new)
        (seen W.World world.new) }
    ensures puts { (levels : ℕ) → 0 < levels → levels ≤ 65
        → Adds path.now (λ before now more. IsNodeOf before (λ files. node_at levels files path.now size)
        (65 - levels) size [] now more)
        (λ before fault. Refuses before (λ files. node_at levels files path.now size) fault)
        (writer_seen T.state writer.old) (seen W.World world.old) result (writer_seen T.state writer.new) (seen W.World world.new) }
    ensures few { IfOk result (λ now. now ≤ limit) }
{
    let size = room(size, 10, len)?;
    let head = file_bytes(alloc, exec, len)?;
    writer.add(alloc, world, head.as_slice())?;
    put_contents(alloc, world, writer, path, len)?;
    Ok(size)
}

// A link, where so many levels may stand.
fn put_target<W: World, T: Target>(
    alloc: Global,
    world: &mut W,
    writer: &mut Writer<T>,
    path: &Path,
    target: &str,
    levels: u32,
    size: u64,
) -> Result<u64, StoreFault>
    requires levels { levels ≤ 65 }
    requires size { size ≤ 1073742081 }
    ensures leaves { LeavesNew path.now (writer_seen T.state writer.old) (seen W.World world.old) result (writer_seen T.state writer.new)
        (seen W.World world.new) }
    ensures puts { Adds path.now (λ before now more. IsNodeOf before (λ files. link_of path.now levels size target.now)
        (65 - levels) size [] now more)
        (λ before fault. Refuses before (λ files. link_of path.now levels size target.now) fault)
        (writer_seen T.state writer.old) (seen W.World world.old) result (writer_seen T.state writer.new) (seen W.World world.new) }
    ensures few { IfOk result (λ now. now ≤ limit) }
{
    let size = link_size(alloc, path, target, levels, size)?;
    let bytes = link_bytes(alloc, target)?;
    writer.add(alloc, world, bytes.as_slice())?;
    Ok(size)
}

// The link at a path, where so many levels may stand.
fn put_link<W: World, T: Target>(
    alloc: Global,
    world: &mut W,
    writer: &mut Writer<T>,
    path: &Path,
    levels: u32,
    size: u64,
) -> Result<u64, StoreFault>
    requires levels { levels ≤ 65 }
    requires size { size ≤ 1073742081 }
    requires kind { IfSome (W.tree world.old) (λ files. kind.Link ≡ kind_of (item_at files path.now)) }
    ensures leaves { LeavesNew path.now (writer_seen T.state writer.old) (seen W.World world.old) result (writer_seen T.state writer.new)
        (seen W.World world.new) }
    ensures puts { Adds path.now (λ before now more. IsNodeOf before (λ files. node_at levels files path.now size)
        (65 - levels) size [] now more)
        (λ before fault. Refuses before (λ files. node_at levels files path.now size) fault)
        (writer_seen T.state writer.old) (seen W.World world.old) result (writer_seen T.state writer.new) (seen W.World world.new) }
    ensures few { IfOk result (λ now. now ≤ limit) }
{
    let target = target_at(alloc, world, path)?;
    put_target(alloc, world, writer, path, target.as_str(), levels, size)
}

// The name and the node of an entry.
#[cycle(put)]
fn put_entry<W: World, T: Target>(
    alloc: Global,
    world: &mut W,
    writer: &mut Writer<T>,
    folder: &Path,
    name: &Text,
    levels: u32,
    size: u64,
) -> Result<u64, StoreFault>
    requires part { IsTrue (is_part name.now) }
    requires levels { levels ≤ 64 }
    requires size { size ≤ limit }
    requires short { length folder.now + 256 * (levels + 1) ≤ 32768 }
    ensures leaves { LeavesNew folder.now (writer_seen T.state writer.old) (seen W.World world.old) result (writer_seen T.state writer.new)
        (seen W.World world.new) }
    ensures puts { Adds folder.now (λ before now more. IsNodeOf before
        (λ files. node_at levels files (joined folder.now name.now) (size + (2 + length name.now)))
        (65 - levels) (size + (2 + length name.now)) (name_bytes name.now) now more)
        (λ before fault. Refuses before
        (λ files. node_at levels files (joined folder.now name.now) (size + (2 + length name.now))) fault)
        (writer_seen T.state writer.old) (seen W.World world.old) result (writer_seen T.state writer.new) (seen W.World world.new) }
    ensures name { is_name name.now ≡ true }
    ensures few { IfOk result (λ now. now ≤ limit) }
{
    let head = head_length(name);
    let bytes = name_bytes(alloc, name.as_str())?;
    writer.add(alloc, world, bytes.as_slice())?;
    let path = folder.below(alloc, name.as_str())?;
    put_node(alloc, world, writer, &path, levels, size + head)
}

// The entries of these names, in order.
#[cycle(put)]
fn put_entries<W: World, T: Target>(
    alloc: Global,
    world: &mut W,
    writer: &mut Writer<T>,
    folder: &Path,
    names: &[Text],
    levels: u32,
    size: u64,
) -> Result<u64, StoreFault>
    requires names { AreNames names.now }
    requires levels { levels ≤ 64 }
    requires size { size ≤ limit }
    requires short { length folder.now + 256 * (levels + 1) ≤ 32768 }
    ensures leaves { LeavesNew folder.now (writer_seen T.state writer.old) (seen W.World world.old) result (writer_seen T.state writer.new)
        (seen W.World world.new) }
    ensures puts { Adds folder.now (λ before now more. AreEntriesOf before
        (λ files. in_order (λ name. node_at levels files (joined folder.now name)) names.now size)
        (65 - levels) (length names.now) size now more)
        (λ before fault. Refuses before
        (λ files. in_order (λ name. node_at levels files (joined folder.now name)) names.now size) fault)
        (writer_seen T.state writer.old) (seen W.World world.old) result (writer_seen T.state writer.new) (seen W.World world.new) }
    ensures few { IfOk result (λ now. now ≤ limit) }
{
    let mut so_far = size;
    for name in names {
        let now = put_entry(alloc, world, writer, folder, name, levels, so_far)?;
        so_far = now;
    }
    Ok(so_far)
}

// The folder at a path, below which so many levels may stand.
#[cycle(put)]
fn put_names<W: World, T: Target>(
    alloc: Global,
    world: &mut W,
    writer: &mut Writer<T>,
    path: &Path,
    levels: u32,
    size: u64,
) -> Result<u64, StoreFault>
    requires levels { levels ≤ 64 }
    requires size { size ≤ 1073742081 }
    requires short { length path.now + 256 * (levels + 1) ≤ 32768 }
    requires kind { IfSome (W.tree world.old) (λ files. kind.Folder ≡ kind_of (item_at files path.now)) }
    ensures leaves { LeavesNew path.now (writer_seen T.state writer.old) (seen W.World world.old) result (writer_seen T.state writer.new)
        (seen W.World world.new) }
    ensures puts { Adds path.now (λ before now more. IsNodeOf before (λ files. node_of files path.now
        (λ name. node_at levels files (joined path.now name)) size (item_at files path.now))
        (64 - levels) size [] now more)
        (λ before fault. Refuses before (λ files. node_of files path.now
        (λ name. node_at levels files (joined path.now name)) size (item_at files path.now)) fault)
        (writer_seen T.state writer.old) (seen W.World world.old) result (writer_seen T.state writer.new) (seen W.World world.new) }
    ensures few { IfOk result (λ now. now ≤ limit) }
{
    let size = room(size, 5, 0)?;
    let names = listed(alloc, world, path)?;
    let items = names.as_slice();
    let head = folder_bytes(alloc, items.len())?;
    writer.add(alloc, world, head.as_slice())?;
    put_entries(alloc, world, writer, path, items, levels, size)
}

// The node at a path, of which so many levels may stand.
#[cycle(put)]
fn put_node<W: World, T: Target>(
    alloc: Global,
    world: &mut W,
    writer: &mut Writer<T>,
    path: &Path,
    levels: u32,
    size: u64,
) -> Result<u64, StoreFault>
    requires levels { levels ≤ 65 }
    requires size { size ≤ 1073742081 }
    requires short { length path.now + 256 * levels ≤ 32768 }
    ensures leaves { LeavesNew path.now (writer_seen T.state writer.old) (seen W.World world.old) result (writer_seen T.state writer.new)
        (seen W.World world.new) }
    ensures puts { Adds path.now (λ before now more. IsNodeOf before (λ files. node_at levels files path.now size)
        (65 - levels) size [] now more)
        (λ before fault. Refuses before (λ files. node_at levels files path.now size) fault)
        (writer_seen T.state writer.old) (seen W.World world.old) result (writer_seen T.state writer.new) (seen W.World world.new) }
    ensures few { IfOk result (λ now. now ≤ limit) }
{
    match kind_at(alloc, world, path)? {
        Kind::Absent => Err(odd(alloc, path)),
        Kind::Odd => Err(odd(alloc, path)),
        Kind::Link => put_link(alloc, world, writer, path, levels, size),
        Kind::File { exec, len } => {
            if levels == 0 {
                return Err(too_deep());
            }
            put_file(alloc, world, writer, path, exec, len, size)
        }
        Kind::Folder => {
            if levels == 0 {
                return Err(too_deep());
            }
            put_names(alloc, world, writer, path, levels - 1, size)
        }
    }
}

/// Writes the node of the folder at a path, and says how many bytes the spelling has with it.
pub(crate) fn put_root<W: World, T: Target>(
    alloc: Global,
    world: &mut W,
    writer: &mut Writer<T>,
    path: &Path,
) -> Result<u64, StoreFault>
    requires { length path.now ≤ 8192 }
    ensures leaves { LeavesNew path.now (writer_seen T.state writer.old) (seen W.World world.old) result (writer_seen T.state writer.new)
        (seen W.World world.new) }
    ensures puts { Adds path.now (λ before now more. IsRootOf before path.now now more)
        (λ before fault. Refuses before (tree_in path.now) fault)
        (writer_seen T.state writer.old) (seen W.World world.old) result (writer_seen T.state writer.new) (seen W.World world.new) }
{
    match kind_at(alloc, world, path)? {
        Kind::Folder => put_names(alloc, world, writer, path, MAX_LEVELS - 1, 5),
        Kind::Absent => Err(odd(alloc, path)),
        Kind::File { exec: _, len: _ } => Err(odd(alloc, path)),
        Kind::Link => Err(odd(alloc, path)),
        Kind::Odd => Err(odd(alloc, path)),
    }
}

/// Writes the tree of the folder at a path, and says how many bytes its spelling has.
pub(crate) fn put_tree<W: World, T: Target>(
    alloc: Global,
    world: &mut W,
    writer: &mut Writer<T>,
    path: &Path,
) -> Result<u64, StoreFault>
    requires { length path.now ≤ 8192 }
    ensures leaves { LeavesNew path.now (writer_seen T.state writer.old) (seen W.World world.old) result (writer_seen T.state writer.new)
        (seen W.World world.new) }
    ensures puts { Adds path.now (λ before now more. IsTreeOf before path.now now more)
        (λ before fault. Refuses before (tree_in path.now) fault)
        (writer_seen T.state writer.old) (seen W.World world.old) result (writer_seen T.state writer.new) (seen W.World world.new) }
{
    writer.add(alloc, world, b"CNBT\x01")?;
    put_root(alloc, world, writer, path)
}

// A tree in memory, as the changes that made it.
ghost use Rattle.std.specs.Prelude.{◌≡◌, ◌+◌, ◌≤◌, ◌<◌, ◌^◌, ◌++◌, ◌∷◌, [], IfOk, OnOk, OnErr, length, map, take, drop};
ghost use Rattle.std.specs.Prelude.{is_some, not, ◌||◌, vec_len, vec_capacity};
ghost use Rattle.std.specs.FinMap.{get, insert};
ghost use Rattle.cnb_world.specs.Tree.{IsTree, Tree, item_at, kind_of, bytes_of, is_folder, is_file, is_file_or_absent};
ghost use Rattle.cnb_world.specs.Tree.{can_make_folder, folders_above, folder_made, appended, is_link, renamed};
ghost use Rattle.cnb_world.specs.Tree.{target_of, without, Lists};
ghost use Rattle.cnb_world.specs.Calls.{AreNames};
ghost use Rattle.cnb_world.specs.Names.{AddsOne, AddsOnWay, AddsStanding};
ghost use Rattle.cnb_world.specs.Memory.{HavePaths, tree_of, changed, bytes_written, length_of_change, length_of_items};
ghost use Rattle.cnb_world.specs.Memory.{placed, all_placed, end_of_run, row_of, rows_of, run_of, runs_of, targets};
ghost use Rattle.cnb_world.specs.Memory.{way_to, ways_to};

use crate::memory::change::{Change, item_len, items_len};
use crate::memory::effect::{ends_folder, gather, kind_after, target_after};
use crate::memory::names::{add_name, name_in};
use crate::memory::play::ChildRun;
use crate::path::Path;
use crate::values::{Bytes, Memory, Text};
use crate::world::{Item, Kind, Placed};
use std::alloc::Global;

/// The changes of a tree that was empty, first to last, and a bound on the bytes that they wrote.
#[derive(Drop)]
pub struct Changes {
    alloc: Global,
    list: Vec<Change>,
    written: u64,
    ghost counted: { bytes_written list.items ≤ written },
    ghost fits: { bytes_written list.items < 2 ^ 64 },
}

impl Changes {
    pub fn new(alloc: Global) -> Changes
        ensures { result.list.items ≡ [] }
    {
        Changes {
            alloc,
            list: Vec::new(alloc),
            written: 0,
        }
    }

    /// What stands at a path.
    pub fn kind(&self, path: &str) -> Kind
        ensures { result ≡ kind_of (item_at (tree_of self.now.list.items) path.now) }
    {
        if path == "/" {
            return Kind::Folder;
        }
        kind_after(&self.list, path)
    }

    /// The bytes of a file from `at` on, at most `max` of them.
    pub fn read(&self, path: &str, at: u64, max: u64) -> Result<Bytes, Memory>
        ensures { IfOk result (λ bytes. bytes
            ≡ take max (drop at (bytes_of (get (tree_of self.now.list.items) path.now)))) }
    {
        let mut bytes = Bytes::from_vec(Vec::new(self.alloc));
        gather(&self.list, path, &mut bytes)?;
        Bytes::of(self.alloc, part(bytes.as_slice(), at, max))
    }

    /// The target of a link.
    pub fn link_target(&self, path: &str) -> Result<Text, Memory>
        ensures { IfOk result (λ target. target ≡ target_of (get (tree_of self.now.list.items) path.now)) }
    {
        target_after(self.alloc, &self.list, path)
    }

    /// Whether a link stands at a path.
    pub fn is_link(&self, path: &str) -> bool
        ensures { result ≡ is_link (item_at (tree_of self.now.list.items) path.now) }
    {
        match self.kind(path) {
            Kind::Link => true,
            Kind::Absent | Kind::File { .. } | Kind::Folder | Kind::Odd => false,
        }
    }

    /// Whether something stands at a path.
    pub fn stands(&self, path: &str) -> bool
        ensures { result ≡ is_some (item_at (tree_of self.now.list.items) path.now) }
    {
        match self.kind(path) {
            Kind::Absent => false,
            Kind::File { .. } | Kind::Folder | Kind::Link | Kind::Odd => true,
        }
    }

    /// Whether a folder stands at a path.
    pub fn is_folder(&self, path: &str) -> bool
        ensures { result ≡ is_folder (item_at (tree_of self.now.list.items) path.now) }
    {
        match self.kind(path) {
            Kind::Folder => true,
            Kind::Absent | Kind::File { .. } | Kind::Link | Kind::Odd => false,
        }
    }

    /// Whether a file stands at a path.
    pub fn is_file(&self, path: &str) -> bool
        ensures { result ≡ is_file (item_at (tree_of self.now.list.items) path.now) }
    {
        match self.kind(path) {
            Kind::File { .. } => true,
            Kind::Absent | Kind::Folder | Kind::Link | Kind::Odd => false,
        }
    }

    /// Whether a file or nothing stands at a path.
    pub fn is_file_or_absent(&self, path: &str) -> bool
        ensures { result ≡ is_file_or_absent (item_at (tree_of self.now.list.items) path.now) }
    {
        match self.kind(path) {
            Kind::Absent | Kind::File { .. } => true,
            Kind::Folder | Kind::Link | Kind::Odd => false,
        }
    }

    /// The children that ran, in order.
    pub fn runs(&self) -> Result<Vec<&ChildRun>, Memory>
        ensures { IfOk result (λ rows. map row_of rows.items ≡ map end_of_run (runs_of self.now.list.items)) }
    {
        let mut rows = Vec::new(self.alloc);
        for change in &self.list {
            add_row(change, &mut rows)?;
        }
        Ok(rows)
    }

    /// The names of what stands in a folder, ascending.
    pub fn names(&self, folder: &str) -> Result<Vec<Text>, Memory>
        ensures names { IfOk result (λ names. AreNames names.items) }
        ensures lists { IfOk result (λ names. Lists (tree_of self.now.list.items) folder.now names.items) }
    {
        let mut names = Vec::new(self.alloc);
        for change in &self.list {
            self.add_names(folder, change, &mut names)?;
        }
        Ok(names)
    }

    // Adds the names of paths where a change may have let something stand.
    fn add_names(&self, folder: &str, change: &Change, names: &mut Vec<Text>) -> Result<(), Memory>
        ensures names { OnOk result (AreNames names.old.items → AreNames names.new.items) }
        ensures adds { OnOk result (AddsStanding (tree_of self.now.list.items) folder.now
            (targets change.now) names.old.items names.new.items) }
    {
        match change {
            Change::Set { path, .. } => self.add_way(folder, path.as_str(), names),
            Change::Appended { path, .. } => self.add_way(folder, path.as_str(), names),
            Change::Renamed { new, .. } => self.add_way(folder, new.as_str(), names),
            Change::Made { path } => self.add_way(folder, path.as_str(), names),
            Change::Emptied { path } => self.add_way(folder, path.as_str(), names),
            Change::Put { next } => self.add_way(folder, next.path.as_str(), names),
            Change::Ran { run } => self.add_ways(folder, run.leaves.as_slice(), names),
        }
    }

    #[tactic(auto, using(crate::proofs::ListingLemmas::adding))]
    fn add_ways(&self, folder: &str, items: &[Placed], names: &mut Vec<Text>) -> Result<(), Memory>
        ensures names { OnOk result (AreNames names.old.items → AreNames names.new.items) }
        ensures adds { OnOk result (AddsStanding (tree_of self.now.list.items) folder.now
            (ways_to items.now) names.old.items names.new.items) }
    {
        let Some((first, later)) = items.split_first() else {
            return Ok(());
        };
        self.add_way(folder, first.path.as_str(), names)?;
        self.add_ways(folder, later, names)?;
        Ok(())
    }

    // Adds the names of a path and of the folders above it.
    #[tactic(auto, using(crate::proofs::ListingLemmas::adding))]
    fn add_way(&self, folder: &str, path: &str, names: &mut Vec<Text>) -> Result<(), Memory>
        ensures names { OnOk result (AreNames names.old.items → AreNames names.new.items) }
        ensures adds { OnOk result (AddsStanding (tree_of self.now.list.items) folder.now
            (way_to path.now) names.old.items names.new.items) }
    {
        self.add_above(folder, path, names)?;
        self.add_standing(folder, path, names)?;
        Ok(())
    }

    fn add_above(&self, folder: &str, path: &str, names: &mut Vec<Text>) -> Result<(), Memory>
        ensures names { OnOk result (AreNames names.old.items → AreNames names.new.items) }
        ensures adds { OnOk result (AddsStanding (tree_of self.now.list.items) folder.now
            (folders_above path.now) names.old.items names.new.items) }
    {
        for place in 0..path.len() {
            self.add_at(folder, path, place, names)?;
        }
        Ok(())
    }

    // Adds the name of the folder above a path whose own path ends at this place.
    #[tactic(auto, using(crate::proofs::ListingLemmas::adding_on))]
    fn add_at(
        &self,
        folder: &str,
        path: &str,
        place: usize,
        names: &mut Vec<Text>,
    ) -> Result<(), Memory>
        requires { place < length path.now }
        ensures names { OnOk result (AreNames names.old.items → AreNames names.new.items) }
        ensures adds { OnOk result (AddsOnWay (tree_of self.now.list.items) folder.now path.now place
            names.old.items names.new.items) }
    {
        if !ends_folder(path.as_bytes(), place) {
            return Ok(());
        }
        self.add_standing(folder, &path[..place], names)?;
        Ok(())
    }

    // Adds the name of a path of this folder where something stands.
    #[tactic(auto, using(crate::proofs::ListingLemmas::standing))]
    fn add_standing(&self, folder: &str, path: &str, names: &mut Vec<Text>) -> Result<(), Memory>
        ensures names { OnOk result (AreNames names.old.items → AreNames names.new.items) }
        ensures adds { OnOk result (AddsOne (tree_of self.now.list.items) folder.now path.now
            names.old.items names.new.items) }
    {
        let Some(name) = name_in(folder, path) else {
            return Ok(());
        };
        if !self.stands(path) {
            return Ok(());
        }
        add_name(self.alloc, names, name)?;
        Ok(())
    }

    pub fn set(&mut self, path: &str, item: Item) -> Result<(), Memory>
        ensures ok { OnOk result (tree_of self.new.list.items ≡ insert (tree_of self.old.list.items) path.now item) }
        ensures err { OnErr result (self.new.list.items ≡ self.old.list.items) }
        ensures runs { runs_of self.new.list.items ≡ runs_of self.old.list.items }
    {
        let path = Text::of(self.alloc, path)?;
        let len = item_len(&item);
        self.push(Change::Set { path, item }, len)
    }

    pub fn append(&mut self, path: &str, bytes: &[u8]) -> Result<(), Memory>
        ensures ok { OnOk result (tree_of self.new.list.items
            ≡ appended path.now bytes.now (tree_of self.old.list.items)) }
        ensures err { OnErr result (self.new.list.items ≡ self.old.list.items) }
        ensures runs { runs_of self.new.list.items ≡ runs_of self.old.list.items }
    {
        let path = Text::of(self.alloc, path)?;
        let len = bytes.len() as u64;
        let bytes = Bytes::of(self.alloc, bytes)?;
        self.push(Change::Appended { path, bytes }, len)
    }

    pub fn rename(&mut self, old: &str, new: &str) -> Result<(), Memory>
        ensures ok { OnOk result (tree_of self.new.list.items ≡ renamed old.now new.now (tree_of self.old.list.items)) }
        ensures err { OnErr result (self.new.list.items ≡ self.old.list.items) }
        ensures runs { runs_of self.new.list.items ≡ runs_of self.old.list.items }
    {
        let old = Text::of(self.alloc, old)?;
        let new = Text::of(self.alloc, new)?;
        self.push(Change::Renamed { old, new }, 0)
    }

    /// Makes a folder and those above it.
    pub fn make_folder(&mut self, path: &str) -> Result<(), Memory>
        ensures ok { OnOk result (tree_of self.new.list.items ≡ folder_made path.now (tree_of self.old.list.items)) }
        ensures err { OnErr result (self.new.list.items ≡ self.old.list.items) }
        ensures runs { runs_of self.new.list.items ≡ runs_of self.old.list.items }
    {
        let path = Text::of(self.alloc, path)?;
        self.push(Change::Made { path }, 0)
    }

    /// Takes away what stands at a path and below it.
    pub fn empty(&mut self, path: &str) -> Result<(), Memory>
        ensures ok { OnOk result (tree_of self.new.list.items ≡ without path.now (tree_of self.old.list.items)) }
        ensures err { OnErr result (self.new.list.items ≡ self.old.list.items) }
        ensures runs { runs_of self.new.list.items ≡ runs_of self.old.list.items }
    {
        let path = Text::of(self.alloc, path)?;
        self.push(Change::Emptied { path }, 0)
    }

    /// Places items in order, each with folders at the paths above it.
    pub fn place_all(&mut self, items: Vec<Placed>) -> Result<(), Memory>
        ensures tree { OnOk result (tree_of self.new.list.items
            ≡ all_placed items.items (tree_of self.old.list.items)) }
        ensures standing { OnOk result (IsTree (tree_of self.old.list.items) → IsTree (tree_of self.new.list.items)) }
        ensures runs { runs_of self.new.list.items ≡ runs_of self.old.list.items }
    {
        for next in items {
            self.place(next)?;
        }
        Ok(())
    }

    #[tactic(auto, using(crate::proofs::Standing::placed_keeps))]
    fn place(&mut self, next: Placed) -> Result<(), Memory>
        ensures tree { OnOk result (tree_of self.new.list.items ≡ placed next (tree_of self.old.list.items)) }
        ensures standing { OnOk result (IsTree (tree_of self.old.list.items) → IsTree (tree_of self.new.list.items)) }
        ensures runs { runs_of self.new.list.items ≡ runs_of self.old.list.items }
    {
        // The proof takes from this call what each path keeps to.
        let _path = next.path.as_str();
        let len = item_len(&next.item);
        self.push(Change::Put { next }, len)
    }

    #[tactic(auto, using(crate::proofs::ChangeLemmas::pushes))]
    fn push(&mut self, change: Change, len: u64) -> Result<(), Memory>
        requires fits { length_of_change change ≤ len }
        requires no_run { (tree : Tree) → run_of change tree ≡ [] }
        ensures ok { OnOk result (tree_of self.new.list.items ≡ changed change (tree_of self.old.list.items)) }
        ensures err { OnErr result (self.new.list.items ≡ self.old.list.items) }
        ensures runs { runs_of self.new.list.items ≡ runs_of self.old.list.items }
    {
        self.make_room(len)?;
        self.add(change);
        Ok(())
    }

    /// Makes room for a change that leaves these items.
    pub fn make_room_for(&mut self, items: &[Placed]) -> Result<(), Memory>
        ensures list { self.new.list.items ≡ self.old.list.items }
        ensures room { OnOk result (vec_len self.new.list < vec_capacity self.new.list) }
        ensures counted { OnOk result (bytes_written self.new.list.items + length_of_items items.now
            ≤ self.new.written) }
        ensures paths { OnOk result (HavePaths items.now) }
    {
        let Some(len) = items_len(items) else {
            return Err(Memory);
        };
        self.make_room(len)
    }

    fn make_room(&mut self, len: u64) -> Result<(), Memory>
        ensures list { self.new.list.items ≡ self.old.list.items }
        ensures room { OnOk result (vec_len self.new.list < vec_capacity self.new.list) }
        ensures counted { OnOk result (bytes_written self.new.list.items + len ≤ self.new.written) }
    {
        let Some(written) = self.written.checked_add(len) else {
            return Err(Memory);
        };
        self.list.reserve(1)?;
        self.written = written;
        Ok(())
    }

    /// Adds the change of a child that ran, for which there is room.
    pub fn add_run(&mut self, run: ChildRun)
        requires room { vec_len self.old.list < vec_capacity self.old.list }
        requires counted { bytes_written self.old.list.items + length_of_items run.leaves ≤ self.old.written }
        ensures list { self.new.list.items ≡ self.old.list.items ++ Change.Ran run ∷ [] }
    {
        self.add(Change::Ran { run });
    }

    #[tactic(auto, using(crate::proofs::ChangeLemmas::bytes_after_last))]
    fn add(&mut self, change: Change)
        requires room { vec_len self.old.list < vec_capacity self.old.list }
        requires counted { bytes_written self.old.list.items + length_of_change change ≤ self.old.written }
        ensures list { self.new.list.items ≡ self.old.list.items ++ change ∷ [] }
    {
        // The proof takes from this line that the count has 64 bits.
        let _written = self.written;
        match self.list.push(change) {
            Ok(()) => {}
            Err(_) => unreachable!(),
        }
    }

    /// Whether nothing but folders, or nothing, stands at a path and above it.
    pub fn can_make_folder(&self, path: &str) -> bool
        ensures { result ≡ can_make_folder (tree_of self.now.list.items) path.now }
    {
        for place in 0..path.len() {
            if ends_folder(path.as_bytes(), place) && !self.can_be_folder(&path[..place]) {
                return false;
            }
        }
        self.can_be_folder(path)
    }

    fn can_be_folder(&self, path: &str) -> bool
        ensures { let found = item_at (tree_of self.now.list.items) path.now in
            result ≡ (is_folder found || not (is_some found)) }
    {
        match self.kind(path) {
            Kind::Absent | Kind::Folder => true,
            Kind::File { .. } | Kind::Link | Kind::Odd => false,
        }
    }
}

fn add_row<'a>(change: &'a Change, rows: &mut Vec<&'a ChildRun>) -> Result<(), Memory>
    ensures { OnOk result (map row_of rows.new.items ≡ map row_of rows.old.items ++ rows_of change.now) }
{
    if let Change::Ran { run } = change {
        rows.push(run)?;
    }
    Ok(())
}

/// The bytes from `at` on, at most `max` of them.
pub fn part(bytes: &[u8], at: u64, max: u64) -> &[u8]
    ensures { result.now ≡ take max (drop at bytes.now) }
{
    let len = bytes.len() as u64;
    if at >= len {
        return &[];
    }
    let rest = &bytes[at as usize..];
    if max >= len - at {
        rest
    } else {
        &rest[..max as usize]
    }
}

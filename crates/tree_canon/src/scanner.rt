// Scanning a spelling field by field, over the names of the open folders.
ghost use Rattle.std.specs.Prelude.{◌≡◌, ◌+◌, ◌-◌, ◌<◌, ◌≤◌, ◌++◌, ℕ, List as Seq, [], length, nat_lt, suc, take, ◌==◌};
ghost use Rattle.std.specs.Prelude.{if◌then◌else◌, reverse, IfOk, OnOk, IsTrue, Err, None, Some};
ghost use Rattle.tree_canon.specs.declared.fault.Reason.{Reason};
ghost use Rattle.tree_canon.specs.declared.fault.DecodeFault.TheVariants as faults;
ghost use Rattle.tree_canon.specs.declared.event.Event.TheVariants as events;
ghost use Rattle.tree_canon.specs.declared.next_field.NextField.TheVariants as next_fields;
ghost use Rattle.tree_canon.specs.declared.next_field.ScannedFolder.{ScannedFolder};
ghost use Rattle.tree_canon.specs.Scanning.{behind, behind_count, behind_file_length, behind_node, behind_tag};
ghost use Rattle.tree_canon.specs.Scanning.{bytes_taken, closes, closes_behind, field_width, place, reason_at};
ghost use Rattle.tree_canon.specs.Scanning.{with_bytes, bytes_held, IsContents, IsWholeField, IsSmallPlace, IsSmall};
ghost use Rattle.tree_canon.specs.Scanning.{IsAt};
ghost use Rattle.tree_canon.specs.Reading.{State, Stuck, run};
ghost use Rattle.tree_canon.specs.Events.{Told, told};
ghost use Rattle.tree_canon.specs.Fields.{event_by};
ghost use Rattle.tree_canon.specs.Telling.{HasTold, FaultFollows};

use crate::event::{Event, Step};
use crate::fault::DecodeFault;
use crate::field::{first_byte, u16_of, u32_of, u64_of};
use crate::next_field::{NextField, ScannedFolder, kept};
use cnb_world::Memory;
use std::alloc::Global;
use std::mem;

// What is done for a field is inlined, since an event that a call returns is copied, which takes longer than most
// fields do.

/// The field that comes next, and its first bytes. `at` counts the bytes before that field, the innermost folder stands
/// last, and `owed` counts the folders that are whole, whose ends were not told yet.
#[derive(Drop)]
pub struct Scanner {
    pub alloc: Global,
    pub at: u64,
    pub folders: Vec<ScannedFolder>,
    pub next: NextField,
    pub part: Vec<u8>,
    pub owed: usize,
}

impl Scanner {
    /// Before the first byte.
    pub fn new(alloc: Global) -> Scanner
        ensures at { result.at ≡ 0 }
        ensures folders { result.folders.items ≡ [] }
        ensures next { result.next ≡ next_fields.Magic 0 }
        ensures part { result.part.items ≡ [] }
        ensures owed { result.owed ≡ 0 }
        ensures partial { bytes_taken result.next result.part.items < field_width result.next }
        ensures small { IsSmall result }
    {
        Scanner {
            alloc,
            at: 0,
            folders: Vec::new(alloc),
            next: NextField::Magic(0),
            part: Vec::new(alloc),
            owed: 0,
        }
    }

    /// How many bytes of the next field were read.
    #[inline(always)]
    pub fn taken(&self) -> u64
        ensures { result ≡ bytes_taken self.now.next self.now.part.items }
    {
        match &self.next {
            NextField::Contents { size: _, taken } => *taken,
            _ => self.part.len() as u64,
        }
    }

    /// How many bytes are kept.
    pub fn held(&self) -> usize
        requires partial { bytes_taken self.now.next self.now.part.items < field_width self.now.next }
        requires small { IsSmall self.now }
        ensures { result ≡ bytes_held self.now }
    {
        let mut held = self.next.length_before() + self.part.len();
        for folder in &self.folders {
            held += folder.name.as_slice().len();
        }
        held
    }

    /// Reads bytes up to the first field that breaks a rule.
    pub fn read(&mut self, piece: &[u8]) -> Result<(), DecodeFault>
        requires partial { bytes_taken self.old.next self.old.part.items < field_width self.old.next }
        requires small { IsSmall self.old }
        ensures partial { OnOk result (bytes_taken self.new.next self.new.part.items < field_width self.new.next) }
        ensures small { OnOk result (IsSmall self.new) }
        ensures runs { (state : State) → IsAt self.old state → OnOk result (IsAt self.new (run state piece.now)) }
        ensures bad { (state : State) → IsAt self.old state → (at : ℕ) (reason : Reason)
            → result ≡ Err (faults.Bad at reason) → run state piece.now ≡ Stuck at reason }
    {
        let mut rest = piece;
        while !rest.is_empty() {
            let need = self.need();
            let (front, back) = rest.split_at(self.share(need, rest.len()));
            self.take(front, need, false)?;
            rest = back;
        }
        Ok(())
    }

    /// Reads bytes up to the first event that they bring, or to the first field that breaks a rule.
    pub fn next(&mut self, input: &[u8]) -> Result<Step, DecodeFault>
        requires partial { bytes_taken self.old.next self.old.part.items < field_width self.old.next }
        requires small { IsSmall self.old }
        requires few { length input.now ≤ 65536 }
        ensures partial { OnOk result (bytes_taken self.new.next self.new.part.items < field_width self.new.next) }
        ensures small { OnOk result (IsSmall self.new) }
        ensures used { IfOk result (λ step. step.used ≤ length input.now) }
        ensures some { self.old.owed ≡ 0 → 0 < length input.now → IfOk result (λ step. 0 < step.used) }
        ensures runs { IfOk result (λ step. (state : State) → IsAt self.old state
            → IsAt self.new (run state (take step.used input.now))) }
        ensures bad { (state : State) → IsAt self.old state → (at : ℕ) (reason : Reason)
            → result ≡ Err (faults.Bad at reason) → run state input.now ≡ Stuck at reason }
        ensures follows { (bytes : Seq ℕ) (given : Seq Told) → HasTold self.old bytes given → (at : ℕ)
            (reason : Reason) → result ≡ Err (faults.Bad at reason) → FaultFollows bytes given input.now at reason }
        ensures told { IfOk result (λ step. (bytes : Seq ℕ) (given : Seq Told) → HasTold self.old bytes given
            → HasTold self.new (bytes ++ take step.used input.now)
            (given ++ told step.event (take step.used input.now))) }
        ensures part { IfOk result (λ step. (n : ℕ) → step.event ≡ events.Part n → (0 < n) × (n ≤ step.used)) }
        ensures all { IfOk result (λ step. (n : ℕ) → step.event ≡ events.Part n → step.used < length input.now
            → IsContents self.new.next → ⊥) }
        ensures more { IfOk result (λ step. step.event ≡ events.More
            → (step.used ≡ length input.now) × (self.new.owed ≡ 0)) }
        ensures close { 0 < self.old.owed → IfOk result (λ step. (step.used ≡ 0) × (step.event ≡ events.Close)) }
    {
        if 0 < self.owed {
            self.owed -= 1;
            return Ok(Step {
                used: 0,
                event: Event::Close,
            });
        }
        let mut used = 0;
        while used < input.len() {
            let rest = &input[used..];
            let need = self.need();
            let share = self.share(need, rest.len());
            let event = self.take(&rest[..share], need, true)?;
            used += share;
            if !event.is_more() {
                return Ok(Step {
                    used: used as u32,
                    event,
                });
            }
        }
        Ok(Step {
            used: used as u32,
            event: Event::More,
        })
    }

    /// How many bytes of the next field were not read yet.
    #[inline(always)]
    fn need(&self) -> u64
        requires { bytes_taken self.now.next self.now.part.items < field_width self.now.next }
        ensures { result ≡ field_width self.now.next - bytes_taken self.now.next self.now.part.items }
    {
        self.next.width() - self.taken()
    }

    /// How many of so many bytes belong to the next field, which needs so many.
    #[inline(always)]
    fn share(&self, need: u64, count: usize) -> usize
        requires partial { bytes_taken self.now.next self.now.part.items < field_width self.now.next }
        requires need { need ≡ field_width self.now.next - bytes_taken self.now.next self.now.part.items }
        ensures some { 0 < count → 0 < result }
        ensures within { result ≤ count }
        ensures fits { bytes_taken self.now.next self.now.part.items + result ≤ field_width self.now.next }
        ensures all { result < count
            → bytes_taken self.now.next self.now.part.items + result ≡ field_width self.now.next }
    {
        need.min(count as u64) as usize
    }

    /// Takes bytes of the next field, and answers the event that they bring, if it is to be told, and else `More`.
    #[inline(always)]
    fn take(&mut self, bytes: &[u8], need: u64, tell: bool) -> Result<Event, DecodeFault>
        requires partial { bytes_taken self.old.next self.old.part.items < field_width self.old.next }
        requires need { need ≡ field_width self.old.next - bytes_taken self.old.next self.old.part.items }
        requires fits { bytes_taken self.old.next self.old.part.items + length bytes.now ≤ field_width self.old.next }
        requires small { IsSmall self.old }
        requires few { IsTrue tell → length bytes.now ≤ 65536 }
        ensures partial { OnOk result (bytes_taken self.new.next self.new.part.items < field_width self.new.next) }
        ensures small { OnOk result (IsSmall self.new) }
        ensures runs { OnOk result ((state : State) → IsAt self.old state → IsAt self.new (run state bytes.now)) }
        ensures bad { (state : State) → IsAt self.old state → (at : ℕ) (reason : Reason)
            → result ≡ Err (faults.Bad at reason) → run state bytes.now ≡ Stuck at reason }
        ensures told { IfOk result (λ event. IsTrue tell → self.old.owed ≡ 0 → (seen : Seq ℕ) (given : Seq Told)
            → HasTold self.old seen given → HasTold self.new (seen ++ bytes.now) (given ++ told event bytes.now)) }
        ensures part { IfOk result (λ event. IsTrue tell → (n : ℕ) → event ≡ events.Part n → n ≡ length bytes.now) }
        ensures all { IfOk result (λ event. IsTrue tell → (n : ℕ) → event ≡ events.Part n
            → bytes_taken self.old.next self.old.part.items + length bytes.now ≡ field_width self.old.next
            → IsContents self.new.next → ⊥) }
        ensures more { IfOk result (λ event. IsTrue tell → self.old.owed ≡ 0 → event ≡ events.More
            → self.new.owed ≡ 0) }
    {
        if (bytes.len() as u64) < need {
            self.keep(bytes)?;
            if tell && self.next.is_contents() {
                return Ok(Event::Part(bytes.len() as u32));
            }
            return Ok(Event::More);
        }
        if self.part.is_empty() {
            return self.take_field(bytes, tell);
        }
        self.keep(bytes)?;
        let part = mem::replace(&mut self.part, Vec::new(self.alloc));
        self.take_field(&part, tell)
    }

    /// Keeps bytes of the next field, which isn't whole, or has a part that was kept before.
    fn keep(&mut self, bytes: &[u8]) -> Result<(), Memory>
        requires { bytes_taken self.old.next self.old.part.items + length bytes.now ≤ field_width self.old.next }
        ensures next { OnOk result (self.new.next ≡ (with_bytes self.old.next self.old.part.items bytes.now).0) }
        ensures part { OnOk result (self.new.part.items ≡ (with_bytes self.old.next self.old.part.items bytes.now).1) }
        ensures rest { (self.new.at ≡ self.old.at) × (self.new.folders ≡ self.old.folders)
            × (self.new.owed ≡ self.old.owed) }
    {
        match &mut self.next {
            NextField::Contents { size, taken } => {
                // The proof takes from this line that the size has 64 bits.
                let _size = *size;
                *taken += bytes.len() as u64;
            }
            _ => self.part.extend_from_slice(bytes)?,
        }
        Ok(())
    }

    /// Judges the next field, which is whole, and goes on behind it. Of a file's contents the last bytes are enough.
    #[inline(always)]
    fn take_field(&mut self, field: &[u8], tell: bool) -> Result<Event, DecodeFault>
        requires whole { IsWholeField self.old.next field.now }
        requires small { IsSmallPlace (place (reverse self.old.folders.items) self.old.next) }
        requires empty { self.old.part.items ≡ [] }
        requires few { IsTrue tell → length field.now ≤ 65536 }
        ensures meets { OnOk result (reason_at (length self.old.folders.items) self.old.at self.old.next
            field.now ≡ None) }
        ensures at { OnOk result (self.new.at ≡ self.old.at + field_width self.old.next) }
        ensures place { OnOk result (place (reverse self.new.folders.items) self.new.next
            ≡ behind (reverse self.old.folders.items) self.old.next field.now) }
        ensures empty { OnOk result (self.new.part.items ≡ []) }
        ensures partial { OnOk result (bytes_taken self.new.next self.new.part.items < field_width self.new.next) }
        ensures small { OnOk result (IsSmall self.new) }
        ensures owed { OnOk result (self.new.owed
            ≡ closes_behind (reverse self.old.folders.items) self.old.next field.now) }
        ensures event { IfOk result (λ event. IsTrue tell → event ≡ event_by self.old.next field.now) }
        ensures bad { (at : ℕ) (reason : Reason) → result ≡ Err (faults.Bad at reason) → (at ≡ self.old.at)
            × (reason_at (length self.old.folders.items) self.old.at self.old.next field.now ≡ Some reason) }
    {
        let depth = self.folders.len();
        let width = self.next.width();
        if let Some(reason) = self.next.reason_of(depth, self.at, width, field) {
            return Err(DecodeFault::Bad {
                at: self.at,
                reason,
            });
        }
        let event = if tell {
            self.next.event(self.alloc, field)?
        } else {
            Event::More
        };
        self.at += width;
        self.owed = advance(self.alloc, &mut self.folders, &mut self.next, field)?;
        Ok(event)
    }
}

/// Goes on to the field behind one that meets its rules, and answers how many folders that one ends.
#[inline(always)]
fn advance(
    alloc: Global,
    folders: &mut Vec<ScannedFolder>,
    next: &mut NextField,
    field: &[u8],
) -> Result<usize, Memory>
    requires whole { IsWholeField next.old field.now }
    requires few { length folders.old.items ≤ 65 }
    ensures place { OnOk result (place (reverse folders.new.items) next.new
        ≡ behind (reverse folders.old.items) next.old field.now) }
    ensures closes { IfOk result (λ closed. closed ≡ closes_behind (reverse folders.old.items) next.old field.now) }
{
    let mut closed = 0;
    match next {
        NextField::Magic(k) => {
            let k = *k;
            *next = if k < 4 {
                NextField::Magic(k + 1)
            } else {
                NextField::Tag
            };
        }
        NextField::Tag => *next = behind_tag(first_byte(field)),
        NextField::Count => {
            let behind = behind_count(folders, u32_of(field));
            *next = behind.0;
            closed = behind.1;
        }
        NextField::NameLength { left, last } => {
            let left = *left;
            let last = mem::replace(last, None);
            let size = u16_of(field);
            *next = NextField::Name { left, last, size };
        }
        NextField::Name {
            left,
            last,
            size: _,
        } => {
            let left = *left;
            let name = kept(alloc, mem::replace(last, None), field)?;
            *next = NextField::Tag;
            folders.push(ScannedFolder { left, name })?;
        }
        NextField::Executable => {
            let exec = first_byte(field) == 1;
            *next = NextField::FileLength { exec };
        }
        NextField::FileLength { exec: _ } => {
            let behind = behind_file_length(folders, u64_of(field));
            *next = behind.0;
            closed = behind.1;
        }
        NextField::Contents { size: _, taken: _ } => {
            let behind = behind_node(folders);
            *next = behind.0;
            closed = behind.1;
        }
        NextField::TargetLength => {
            let size = u16_of(field);
            *next = NextField::Target { size };
        }
        NextField::Target { size: _ } => {
            let behind = behind_node(folders);
            *next = behind.0;
            closed = behind.1;
        }
        NextField::End => {}
    }
    Ok(closed)
}

fn behind_tag(tag: u8) -> NextField
    ensures { (fs : Seq ScannedFolder) → place fs result ≡ behind_tag fs tag }
{
    if tag == b'D' {
        NextField::Count
    } else if tag == b'F' {
        NextField::Executable
    } else {
        NextField::TargetLength
    }
}

/// In a folder of this count, before its first entry.
fn behind_count(folders: &mut Vec<ScannedFolder>, count: u32) -> (NextField, usize)
    requires { length folders.old.items ≤ 65 }
    ensures place { place (reverse folders.new.items) result.0 ≡ behind_count (reverse folders.old.items) count }
    ensures closes { result.1 ≡ (if nat_lt 0 count then 0 else suc (closes (reverse folders.old.items))) }
{
    if 0 < count {
        let next = NextField::NameLength {
            left: count - 1,
            last: None,
        };
        return (next, 0);
    }
    let (next, closed) = behind_node(folders);
    (next, closed + 1)
}

/// In a file of this length, before its contents.
fn behind_file_length(folders: &mut Vec<ScannedFolder>, size: u64) -> (NextField, usize)
    ensures place { place (reverse folders.new.items) result.0 ≡ behind_file_length (reverse folders.old.items) size }
    ensures closes { result.1 ≡ (if size == 0 then closes (reverse folders.old.items) else 0) }
{
    if size == 0 {
        return behind_node(folders);
    }
    (NextField::Contents { size, taken: 0 }, 0)
}

/// A node is whole: its folder goes on, or is whole too. Counts the folders that are.
fn behind_node(folders: &mut Vec<ScannedFolder>) -> (NextField, usize)
    ensures place { place (reverse folders.new.items) result.0 ≡ behind_node (reverse folders.old.items) }
    ensures closes { result.1 ≡ closes (reverse folders.old.items) }
    ensures few { result.1 ≤ length folders.old.items }
{
    let mut closed = 0;
    while let Some(folder) = folders.pop() {
        let ScannedFolder { left, name } = folder;
        if 0 < left {
            let next = NextField::NameLength {
                left: left - 1,
                last: Some(name),
            };
            return (next, closed);
        }
        closed += 1;
    }
    (NextField::End, closed)
}

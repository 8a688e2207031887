// The first rows of a trial, and whether a trial that begins with them can still pass.
ghost use Rattle.std.specs.Prelude.{◌≡◌, ◌<◌, ◌++◌, ◌∷◌, ◌^◌, [], IfOk, OnOk, length};
ghost use Rattle.std.specs.Bool.{OnTrue};
ghost use Rattle.plan_resolve.specs.Prefixes.{IsDead, CoversClosed};

use crate::borrowed::BorrowedRow;
use crate::pruning::are_provided;
use cnb_world::Memory;
use std::alloc::Global;

/// The rows of a trial that are chosen so far, and the places of those whose requirements are provided, each at or
/// before its place and by a row of these places.
#[derive(Drop)]
pub struct Prefix<'a> {
    rows: Vec<BorrowedRow<'a>>,
    places: Vec<u32>,
}

impl<'a> Prefix<'a> {
    /// No row yet, with room for so many.
    pub fn with_capacity(alloc: Global, rows: usize) -> Result<Prefix<'a>, Memory>
        ensures { IfOk result (λ prefix. prefix.rows.items ≡ []) }
    {
        Ok(Prefix {
            rows: Vec::with_capacity(alloc, rows)?,
            places: Vec::with_capacity(alloc, rows)?,
        })
    }

    pub fn rows(&self) -> &[BorrowedRow<'a>]
        ensures { result.now ≡ self.now.rows.items }
    {
        self.rows.as_slice()
    }

    /// Takes all rows away.
    pub fn clear(&mut self)
        ensures { self.new.rows.items ≡ [] }
    {
        self.rows.clear();
        self.places.clear();
    }

    /// Adds a row, and answers whether the rows are dead then.
    pub fn push(&mut self, row: BorrowedRow<'a>) -> Result<bool, Memory>
        requires len { length self.old.rows.items < 2 ^ 32 }
        requires covers { CoversClosed self.old.rows.items self.old.places.items }
        ensures rows { OnOk result (self.new.rows.items ≡ self.old.rows.items ++ row.entry ∷ []) }
        ensures covers { OnOk result (CoversClosed self.new.rows.items self.new.places.items) }
        ensures dead { IfOk result (λ dead. OnTrue dead (IsDead self.new.rows.items)) }
    {
        let needs = row.needs();
        let optional = row.is_optional();
        let earlier = self.places.len();
        self.places.push(self.rows.len() as u32)?;
        self.rows.push(row)?;
        if are_provided(self.rows.as_slice(), self.places.as_slice(), needs) {
            return Ok(false);
        }
        self.places.truncate(earlier);
        Ok(!optional)
    }
}

// Whether bytes that come in pieces spell a tree.
ghost use Rattle.std.specs.Prelude.{◌≡◌, ◌<◌, ◌≤◌, ◌++◌, ℕ, List as Seq, [], length, take, Ok, Err, IfOk, OnOk};
ghost use Rattle.tree_canon.specs.declared.event.Event.TheVariants as events;
ghost use Rattle.tree_canon.specs.declared.fault.Reason.{Reason};
ghost use Rattle.tree_canon.specs.declared.fault.DecodeFault.TheVariants as faults;
ghost use Rattle.tree_canon.specs.Events.{Told, told};
ghost use Rattle.tree_canon.specs.Telling.{FaultFollows};
ghost use Rattle.tree_canon.specs.Feeding.{Fed};
ghost use Rattle.tree_canon.specs.Scanning.{bytes_taken, field_width, IsSmall};

use crate::event::Step;
use crate::fault::{DecodeFault, Reason};
use crate::next_field::NextField;
use crate::scanner::Scanner;
use cnb_world::Memory;
use std::alloc::Global;

/// Judges bytes that come in pieces as `Decoder` does, and makes no tree of them: `feed` judges a piece, and `next`
/// tells what it says of the tree besides, event by event. To get events, give all bytes to `next`: for those that
/// `feed` takes there are none, and the ends of folders may be missing after them. A scan keeps one name of each open
/// folder, the name before the one under way, and of the field that has begun all bytes but a file's contents.
#[derive(Drop)]
pub struct Scan {
    scanner: Scanner,
    fault: Option<DecodeFault>,
    ghost partial: { bytes_taken scanner.next scanner.part.items < field_width scanner.next },
    ghost small: { IsSmall scanner },
}

impl Scan {
    ghost use Rattle.tree_canon.specs.Scans.{Scans, ScanFeeds, ScanTakes, ScanEnds, HasGiven, GivesTree, IsInContents};
    ghost use Rattle.tree_canon.specs.Scans.{held, owed};

    /// A scan that was fed no byte.
    pub fn new(alloc: Global) -> Result<Scan, Memory>
        ensures fed { IfOk result (λ scan. Scans scan (Ok [])) }
        ensures given { IfOk result (λ scan. HasGiven scan [] []) }
    {
        Ok(Scan {
            scanner: Scanner::new(alloc),
            fault: None,
        })
    }

    /// Takes the next bytes, and answers as `Decoder::feed` does.
    pub fn feed(&mut self, piece: &[u8]) -> Result<(), DecodeFault>
        ensures { (fed : Fed) → Scans self.old fed → ScanFeeds fed piece.now result self.new }
    {
        if let Some(fault) = self.fault {
            return Err(fault);
        }
        match self.scanner.read(piece) {
            Ok(()) => Ok(()),
            Err(fault) => {
                self.scanner = Scanner::new(self.scanner.alloc);
                self.fault = Some(fault);
                Err(fault)
            }
        }
    }

    /// Takes the next bytes up to the first event that they bring, and answers that event. Where they bring none, it
    /// takes all of them and answers `More`. A `Close` takes no byte: it comes before the next field, once for each
    /// folder that is whole, the innermost first.
    pub fn next(&mut self, input: &[u8]) -> Result<Step, DecodeFault>
        requires { length input.now ≤ 65536 }
        ensures takes { (fed : Fed) → Scans self.old fed → ScanTakes fed input.now result self.new }
        ensures gives { IfOk result (λ step. (bytes : Seq ℕ) (given : Seq Told) → HasGiven self.old bytes given
            → HasGiven self.new (bytes ++ take step.used input.now)
            (given ++ told step.event (take step.used input.now))) }
        // Nothing that the bytes before the field at fault tell is left.
        ensures follows { (bytes : Seq ℕ) (given : Seq Told) → HasGiven self.old bytes given → (at : ℕ)
            (reason : Reason) → result ≡ Err (faults.Bad at reason) → FaultFollows bytes given input.now at reason }
        ensures used { IfOk result (λ step. step.used ≤ length input.now) }
        ensures part { IfOk result (λ step. (n : ℕ) → step.event ≡ events.Part n → (0 < n) × (n ≤ step.used)) }
        ensures all { IfOk result (λ step. (n : ℕ) → step.event ≡ events.Part n → step.used < length input.now
            → IsInContents self.new → ⊥) }
        // Nothing that the bytes tell is left.
        ensures more { IfOk result (λ step. step.event ≡ events.More
            → (step.used ≡ length input.now) × (owed self.new ≡ 0)) }
        ensures close { 0 < owed self.old → IfOk result (λ step. (step.used ≡ 0) × (step.event ≡ events.Close)) }
    {
        if let Some(fault) = self.fault {
            return Err(fault);
        }
        match self.scanner.next(input) {
            Ok(step) => Ok(step),
            Err(fault) => {
                self.scanner = Scanner::new(self.scanner.alloc);
                self.fault = Some(fault);
                Err(fault)
            }
        }
    }

    /// How many bytes it keeps: the last names of the open folders, and of the field that has begun all bytes but a
    /// file's contents. At most these are 64 names of 255 bytes and 4,095 bytes of a target.
    pub fn held(&self) -> usize
        ensures held { result ≡ held self.now }
        ensures few { result ≤ 20415 }
    {
        self.scanner.held()
    }

    /// Whether all bytes fed spell a tree; else what `Decoder::finish` answers.
    pub fn finish(self) -> Result<(), DecodeFault>
        ensures ends { (fed : Fed) → Scans self fed → ScanEnds fed result }
        ensures given { (bytes : Seq ℕ) (given : Seq Told) → HasGiven self bytes given
            → OnOk result (GivesTree bytes given (owed self)) }
    {
        let Scan { scanner, fault } = self;
        if let Some(fault) = fault {
            return Err(fault);
        }
        match scanner.next {
            NextField::End => Ok(()),
            _ => Err(DecodeFault::Bad {
                at: scanner.at.saturating_add(scanner.taken()),
                reason: Reason::Short,
            }),
        }
    }
}

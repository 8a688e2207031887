// Reading a tree from bytes that come in pieces.
ghost use Rattle.std.specs.Prelude.{◌≡◌, ◌↔◌, ◌<◌, ◌++◌, [], ℕ, List, Result, Ok, Err, IfOk, OnOk};
ghost use Rattle.tree_canon.specs.declared.node.Node.{Node};
ghost use Rattle.tree_canon.specs.declared.fault.Reason.{Reason};
ghost use Rattle.tree_canon.specs.declared.fault.DecodeFault.TheVariants as faults;
ghost use Rattle.tree_canon.specs.Division.{Spells, IsDivided};
ghost use Rattle.tree_canon.specs.Feeding.{DecodesTo};
ghost use Rattle.tree_canon.specs.Reading.{State, Stuck, run};
ghost use Rattle.tree_canon.specs.Scanning.{bytes_taken, field_width, IsSmall, IsAt};
ghost use Rattle.tree_canon.specs.Decoding.{HasMade, HasSamePlace};

use crate::building::{Building, Current};
use crate::event::Event;
use crate::fault::{DecodeFault, Reason};
use crate::scanner::Scanner;
use crate::tree::Tree;
use cnb_world::Memory;
use std::alloc::Global;
use std::marker::Model;

/// The most bytes that a scanner is given at once.
const MOST_GIVEN: usize = 65536;

/// Reads a tree from bytes that come in pieces. Contracts see the bytes that were fed while nothing in them is broken,
/// and from then on the fault that every later call answers.
#[derive(Drop)]
pub struct Decoder {
    scanner: Scanner,
    building: Building,
    fault: Option<DecodeFault>,
}

impl Model for Decoder {
    ghost use Rattle.std.specs.Prelude.{List, ℕ, Result};
    ghost use Rattle.tree_canon.specs.declared.fault.DecodeFault.{DecodeFault};

    ghost Value = { Result (List ℕ) DecodeFault };

    ghost use Rattle.tree_canon.specs.Decoding.{fed_by, IsDecoding};

    ghost view = { λ d. fed_by d.scanner d.building d.fault };

    ghost invariant = { λ d. IsDecoding d.scanner d.building d.fault };
}

impl Decoder {
    ghost use Rattle.tree_canon.specs.Feeding.{Feeds, Ends};

    /// A decoder that was fed no byte.
    pub fn new(alloc: Global) -> Result<Decoder, Memory>
        ensures { IfOk result (λ decoder. decoder ≡ Ok []) }
    {
        Ok(Decoder {
            scanner: Scanner::new(alloc),
            building: Building::new(alloc),
            fault: None,
        })
    }

    /// Takes the next bytes. A field that breaks a rule is told by the call whose piece makes it whole. However the
    /// bytes were cut, all that were fed are spelled, broken or short.
    pub fn feed(&mut self, piece: &[u8]) -> Result<(), DecodeFault>
        ensures fed { Feeds self.old piece.now result self.new }
        ensures divided { (bytes : List ℕ) → self.old ≡ Ok bytes → IsDivided (bytes ++ piece.now) }
    {
        if let Some(fault) = self.fault {
            return Err(fault);
        }
        match read(&mut self.scanner, &mut self.building, piece) {
            Ok(()) => Ok(()),
            Err(fault) => {
                self.fault = Some(fault);
                Err(fault)
            }
        }
    }

    /// The tree that all bytes fed spell.
    pub fn finish(self) -> Result<Tree, DecodeFault>
        ensures ends { Ends self result }
        ensures exact { (tree : Node) (bytes : List ℕ) → self ≡ Ok bytes → ((result ≡ Ok tree) ↔ Spells tree bytes) }
    {
        let Decoder {
            scanner,
            building,
            fault,
        } = self;
        if let Some(fault) = fault {
            return Err(fault);
        }
        let Building {
            alloc: _,
            folders: _,
            current,
        } = building;
        match current {
            Current::Whole(root) => Ok(Tree::measured(root, scanner.at)),
            _ => Err(DecodeFault::Bad {
                at: scanner.at.saturating_add(scanner.taken()),
                reason: Reason::Short,
            }),
        }
    }
}

/// Reads bytes up to the first field that breaks a rule, and adds to the tree what they tell.
fn read(scanner: &mut Scanner, building: &mut Building, piece: &[u8]) -> Result<(), DecodeFault>
    requires partial { bytes_taken scanner.old.next scanner.old.part.items < field_width scanner.old.next }
    requires small { IsSmall scanner.old }
    requires owed { scanner.old.owed ≡ 0 }
    ensures partial { OnOk result (bytes_taken scanner.new.next scanner.new.part.items < field_width scanner.new.next) }
    ensures small { OnOk result (IsSmall scanner.new) }
    ensures owed { OnOk result (scanner.new.owed ≡ 0) }
    ensures made { OnOk result ((bytes : List ℕ) → HasMade scanner.old building.old bytes
        → HasMade scanner.new building.new (bytes ++ piece.now)) }
    ensures bad { (state : State) → IsAt scanner.old state → (at : ℕ) (reason : Reason)
        → result ≡ Err (faults.Bad at reason) → run state piece.now ≡ Stuck at reason }
{
    let mut rest = piece;
    while !rest.is_empty() {
        let (input, _) = rest.split_at(rest.len().min(MOST_GIVEN));
        let step = scanner.next(input)?;
        let (taken, behind) = rest.split_at(step.used as usize);
        building.add(step.event, taken, behind.len())?;
        close(scanner, building)?;
        rest = behind;
    }
    Ok(())
}

/// Adds the ends of the folders that are whole, which the scanner has still to tell.
fn close(scanner: &mut Scanner, building: &mut Building) -> Result<(), Memory>
    ensures owed { OnOk result (scanner.new.owed ≡ 0) }
    ensures place { OnOk result (HasSamePlace scanner.old scanner.new) }
    ensures made { OnOk result ((bytes : List ℕ) → HasMade scanner.old building.old bytes
        → HasMade scanner.new building.new bytes) }
{
    while 0 < scanner.owed {
        scanner.owed -= 1;
        building.add(Event::Close, &[], 0)?;
    }
    Ok(())
}

/// The tree that these bytes spell; `Bad` is the fault that feeding them gives. Nothing is kept of the bytes but what
/// the tree holds.
pub fn decode(alloc: Global, bytes: &[u8]) -> Result<Tree, DecodeFault>
    ensures decodes { DecodesTo bytes.now result }
    ensures divided { IsDivided bytes.now }
{
    let mut decoder = Decoder::new(alloc)?;
    decoder.feed(bytes)?;
    decoder.finish()
}

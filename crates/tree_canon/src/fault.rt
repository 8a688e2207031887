// Why bytes are no spelling, and why a node is no tree.
ghost use Rattle.std.specs.Prelude.{◌≡◌};
ghost use Rattle.tree_canon.specs.declared.fault.DecodeFault.TheVariants as faults;

use cnb_world::Memory;

/// Why bytes are no spelling of a tree.
#[derive(Clone, Copy, Debug, PartialEq, Eq)]
pub enum Reason {
    /// One of the five first bytes is another.
    Magic,
    /// A node begins with a byte that is no tag.
    Tag,
    /// The byte that says whether a file is executable is neither 0 nor 1.
    Exec,
    /// A name or a target, or its length, is out of form.
    Name,
    /// A name isn't above the one before it in its folder.
    Order,
    /// A node lies more than 64 folders deep.
    Deep,
    /// The spelling would have more than 1,073,741,824 bytes.
    Large,
    /// The bytes end before the root node.
    Short,
    /// Bytes follow the root node.
    Rest,
}

/// Why bytes have no tree. `at` is the offset of the first byte of the field that breaks its rule, and for `Short`
/// the number of bytes.
#[derive(Clone, Copy, Debug, PartialEq, Eq)]
pub enum DecodeFault {
    Bad { at: u64, reason: Reason },
    Memory,
}

impl From<Memory> for DecodeFault {
    ghost from_gives = { λ _ e. e ≡ faults.Memory };

    fn from(_: Memory) -> Self {
        DecodeFault::Memory
    }
}

/// Why a node is no tree.
#[derive(Clone, Copy, Debug, PartialEq, Eq)]
pub enum TreeFault {
    Unfit,
    Memory,
}

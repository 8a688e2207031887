// Why a line is not read.
use cnb_toml::NameFault;
use cnb_world::Memory;

/// Why a line is not read: it has no form, or memory ran out.
#[derive(Clone, Copy, Debug, PartialEq, Eq)]
pub(crate) enum LineFault {
    Bad,
    Memory,
}

impl From<Memory> for LineFault {
    ghost use Rattle.std.specs.Prelude.{◌≡◌};
    ghost use Rattle.detect_record.specs.declared.line_fault.LineFault.TheVariants.{Memory};

    ghost from_gives = { λ _ fault. fault ≡ Memory };

    fn from(_: Memory) -> Self {
        LineFault::Memory
    }
}

impl From<NameFault> for LineFault {
    ghost use Rattle.std.specs.Prelude.{◌≡◌};
    ghost use Rattle.detect_record.specs.Reading.{fault_of_name};

    ghost from_gives = { λ fault refusal. refusal ≡ fault_of_name fault };

    fn from(fault: NameFault) -> Self {
        match fault {
            NameFault::Bad => LineFault::Bad,
            NameFault::Memory => LineFault::Memory,
        }
    }
}

// The refusals that the faults of the steps come to.
use crate::refusal::DetectRefusal;
use cnb_world::{LimitKind, Memory, Path};
use detect_core::DetectEnd;
use doc_files::{FileRefusal, ReadFault};
use order_expand::OrderFault;
use std::alloc::AllocError;

impl FileRefusal for DetectRefusal {
    ghost use Rattle.cnb_detect.specs.Refusals.{cause_of};

    ghost cause = { cause_of };

    fn file(path: Path) -> Self {
        DetectRefusal::File(path)
    }

    fn memory() -> Self {
        DetectRefusal::Memory
    }
}

impl From<Memory> for DetectRefusal {
    ghost use Rattle.std.specs.Prelude.{◌≡◌};
    ghost use Rattle.cnb_detect.specs.declared.refusal.DetectRefusal.TheVariants as refusal;

    ghost from_gives = { λ _ given. given ≡ refusal.Memory };

    fn from(_: Memory) -> Self {
        DetectRefusal::Memory
    }
}

impl From<AllocError> for DetectRefusal {
    ghost use Rattle.std.specs.Prelude.{◌≡◌};
    ghost use Rattle.cnb_detect.specs.declared.refusal.DetectRefusal.TheVariants as refusal;

    ghost from_gives = { λ _ given. given ≡ refusal.Memory };

    fn from(_: AllocError) -> Self {
        DetectRefusal::Memory
    }
}

impl From<ReadFault> for DetectRefusal {
    ghost use Rattle.std.specs.Prelude.{◌≡◌};
    ghost use Rattle.cnb_detect.specs.Refusals.{of_read_fault};

    ghost from_gives = { λ fault given. given ≡ of_read_fault fault };

    fn from(fault: ReadFault) -> Self {
        match fault {
            ReadFault::File(path) => DetectRefusal::File(path),
            ReadFault::Document(path, fault) => DetectRefusal::Document(path, fault),
            ReadFault::Limit(kind) => DetectRefusal::Limit(kind),
            ReadFault::Memory => DetectRefusal::Memory,
        }
    }
}

impl From<OrderFault> for DetectRefusal {
    ghost use Rattle.std.specs.Prelude.{◌≡◌};
    ghost use Rattle.cnb_detect.specs.Refusals.{of_order_fault};

    ghost from_gives = { λ fault given. given ≡ of_order_fault fault };

    fn from(fault: OrderFault) -> Self {
        match fault {
            OrderFault::Absent(id) => DetectRefusal::Order {
                id,
                ambiguous: false,
            },
            OrderFault::Ambiguous(id) => DetectRefusal::Order {
                id,
                ambiguous: true,
            },
            OrderFault::Api(_, api) => DetectRefusal::BuildpackApi(api),
            OrderFault::Deep(_) => DetectRefusal::Limit(LimitKind::Nesting),
            OrderFault::ManyGroups => DetectRefusal::Limit(LimitKind::Groups),
            OrderFault::LongGroup => DetectRefusal::Limit(LimitKind::Entries),
            OrderFault::Memory => DetectRefusal::Memory,
        }
    }
}

impl From<DetectEnd> for DetectRefusal {
    ghost use Rattle.std.specs.Prelude.{◌≡◌};
    ghost use Rattle.cnb_detect.specs.Refusals.{of_detect_end};

    ghost from_gives = { λ end given. given ≡ of_detect_end end };

    fn from(end: DetectEnd) -> Self {
        match end {
            DetectEnd::NoGroup { erred } => DetectRefusal::NoGroup { erred },
            DetectEnd::ManyTrials => DetectRefusal::Limit(LimitKind::Trials),
            DetectEnd::Child => DetectRefusal::Child,
            DetectEnd::Memory => DetectRefusal::Memory,
        }
    }
}

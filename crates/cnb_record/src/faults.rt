// The refusals that the faults of the steps come to.
use crate::refusal::CheckRefusal;
use cnb_world::{LimitKind, Memory};
use detect_record::CheckFault;
use doc_files::ReadFault;
use order_expand::OrderFault;

impl From<Memory> for CheckRefusal {
    ghost use Rattle.std.specs.Prelude.{◌≡◌};
    ghost use Rattle.cnb_record.specs.declared.refusal.CheckRefusal.TheVariants as refusal;

    ghost from_gives = { λ _ given. given ≡ refusal.Memory };

    fn from(_: Memory) -> Self {
        CheckRefusal::Memory
    }
}

impl From<ReadFault> for CheckRefusal {
    ghost use Rattle.std.specs.Prelude.{◌≡◌};
    ghost use Rattle.cnb_record.specs.Refusals.{of_read_fault};

    ghost from_gives = { λ fault given. given ≡ of_read_fault fault };

    fn from(fault: ReadFault) -> Self {
        match fault {
            ReadFault::File(path) => CheckRefusal::File(path),
            ReadFault::Document(path, fault) => CheckRefusal::Document(path, fault),
            ReadFault::Limit(kind) => CheckRefusal::Limit(kind),
            ReadFault::Memory => CheckRefusal::Memory,
        }
    }
}

impl From<OrderFault> for CheckRefusal {
    ghost use Rattle.std.specs.Prelude.{◌≡◌};
    ghost use Rattle.cnb_record.specs.Refusals.{of_order_fault};

    ghost from_gives = { λ fault given. given ≡ of_order_fault fault };

    fn from(fault: OrderFault) -> Self {
        match fault {
            OrderFault::Absent(id) => CheckRefusal::Order {
                id,
                ambiguous: false,
            },
            OrderFault::Ambiguous(id) => CheckRefusal::Order {
                id,
                ambiguous: true,
            },
            OrderFault::Api(_, api) => CheckRefusal::BuildpackApi(api),
            OrderFault::Deep(_) => CheckRefusal::Limit(LimitKind::Nesting),
            OrderFault::ManyGroups => CheckRefusal::Limit(LimitKind::Groups),
            OrderFault::LongGroup => CheckRefusal::Limit(LimitKind::Entries),
            OrderFault::Memory => CheckRefusal::Memory,
        }
    }
}

impl From<CheckFault> for CheckRefusal {
    ghost use Rattle.std.specs.Prelude.{◌≡◌};
    ghost use Rattle.cnb_record.specs.Refusals.{of_check_fault};

    ghost from_gives = { λ fault given. given ≡ of_check_fault fault };

    fn from(fault: CheckFault) -> Self {
        match fault {
            CheckFault::Bad { line } => CheckRefusal::BadRecord(line),
            CheckFault::Memory => CheckRefusal::Memory,
        }
    }
}

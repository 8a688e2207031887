// Why the command `export` is refused.
use cnb_layers::ExportFault;
use cnb_world::{Memory, Text};
use std::alloc::AllocError;
use tree_store::StoreFault;

/// Why `export` ends before its work is done: a buildpack of the group has another Buildpack API, or the export was
/// refused.
#[derive(Drop)]
pub enum ExportRefusal {
    BuildpackApi(Text),
    Fault(ExportFault),
}

impl From<Memory> for ExportRefusal {
    ghost use Rattle.std.specs.Prelude.{◌≡◌};
    ghost use Rattle.tree_store.specs.declared.fault.StoreFault.TheVariants as stored;
    ghost use Rattle.cnb_layers.specs.declared.fault.ExportFault.TheVariants.{Store};
    ghost use Rattle.cnb_export.specs.declared.refusal.ExportRefusal.TheVariants.{Fault};

    ghost from_gives = { λ _ given. given ≡ Fault (Store stored.Memory) };

    fn from(_: Memory) -> Self {
        ExportRefusal::Fault(ExportFault::Store(StoreFault::Memory))
    }
}

impl From<AllocError> for ExportRefusal {
    ghost use Rattle.std.specs.Prelude.{◌≡◌};
    ghost use Rattle.tree_store.specs.declared.fault.StoreFault.TheVariants as stored;
    ghost use Rattle.cnb_layers.specs.declared.fault.ExportFault.TheVariants.{Store};
    ghost use Rattle.cnb_export.specs.declared.refusal.ExportRefusal.TheVariants.{Fault};

    ghost from_gives = { λ _ given. given ≡ Fault (Store stored.Memory) };

    fn from(_: AllocError) -> Self {
        ExportRefusal::Fault(ExportFault::Store(StoreFault::Memory))
    }
}

impl From<ExportFault> for ExportRefusal {
    ghost use Rattle.std.specs.Prelude.{◌≡◌};
    ghost use Rattle.cnb_export.specs.declared.refusal.ExportRefusal.TheVariants.{Fault};

    ghost from_gives = { λ fault given. given ≡ Fault fault };

    fn from(fault: ExportFault) -> Self {
        ExportRefusal::Fault(fault)
    }
}

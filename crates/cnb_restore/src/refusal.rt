// Why the command `restore` is refused.
use crate::fault::RestoreFault;
use cnb_world::{Memory, Text};

/// Why `restore` ends before its work is done: a buildpack of the group has another Buildpack API, or the restoration
/// was refused.
#[derive(Drop)]
pub enum RestoreRefusal {
    BuildpackApi(Text),
    Fault(RestoreFault),
}

impl From<Memory> for RestoreRefusal {
    ghost use Rattle.std.specs.Prelude.{◌≡◌};
    ghost use Rattle.cnb_restore.specs.declared.fault.RestoreFault.TheVariants as fault;
    ghost use Rattle.cnb_restore.specs.declared.refusal.RestoreRefusal.TheVariants.{Fault};

    ghost from_gives = { λ _ given. given ≡ Fault fault.Memory };

    fn from(_: Memory) -> Self {
        RestoreRefusal::Fault(RestoreFault::Memory)
    }
}

impl From<RestoreFault> for RestoreRefusal {
    ghost use Rattle.std.specs.Prelude.{◌≡◌};
    ghost use Rattle.cnb_restore.specs.declared.refusal.RestoreRefusal.TheVariants.{Fault};

    ghost from_gives = { λ fault given. given ≡ Fault fault };

    fn from(fault: RestoreFault) -> Self {
        RestoreRefusal::Fault(fault)
    }
}

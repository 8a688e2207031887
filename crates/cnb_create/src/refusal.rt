// Why the command `create` is refused.
use cnb_build::BuildFault;
use cnb_detect::DetectRefusal;
use cnb_layers::ExportFault;
use cnb_restore::RestoreFault;
use cnb_world::Memory;

/// Why `create` ends before its work is done: the refusal of one of its phases, or want of memory between them.
/// `Restore` has those of `analyze` too.
#[derive(Drop)]
pub enum CreateRefusal {
    Detect(DetectRefusal),
    Restore(RestoreFault),
    Build(BuildFault),
    Export(ExportFault),
    Memory,
}

impl From<DetectRefusal> for CreateRefusal {
    ghost use Rattle.std.specs.Prelude.{◌≡◌};
    ghost use Rattle.cnb_create.specs.declared.refusal.CreateRefusal.TheVariants as refused;

    ghost from_gives = { λ refusal given. given ≡ refused.Detect refusal };

    fn from(refusal: DetectRefusal) -> Self {
        CreateRefusal::Detect(refusal)
    }
}

impl From<RestoreFault> for CreateRefusal {
    ghost use Rattle.std.specs.Prelude.{◌≡◌};
    ghost use Rattle.cnb_create.specs.declared.refusal.CreateRefusal.TheVariants as refused;

    ghost from_gives = { λ fault given. given ≡ refused.Restore fault };

    fn from(fault: RestoreFault) -> Self {
        CreateRefusal::Restore(fault)
    }
}

impl From<BuildFault> for CreateRefusal {
    ghost use Rattle.std.specs.Prelude.{◌≡◌};
    ghost use Rattle.cnb_create.specs.declared.refusal.CreateRefusal.TheVariants as refused;

    ghost from_gives = { λ fault given. given ≡ refused.Build fault };

    fn from(fault: BuildFault) -> Self {
        CreateRefusal::Build(fault)
    }
}

impl From<ExportFault> for CreateRefusal {
    ghost use Rattle.std.specs.Prelude.{◌≡◌};
    ghost use Rattle.cnb_create.specs.declared.refusal.CreateRefusal.TheVariants as refused;

    ghost from_gives = { λ fault given. given ≡ refused.Export fault };

    fn from(fault: ExportFault) -> Self {
        CreateRefusal::Export(fault)
    }
}

impl From<Memory> for CreateRefusal {
    ghost use Rattle.std.specs.Prelude.{◌≡◌};
    ghost use Rattle.cnb_create.specs.declared.refusal.CreateRefusal.TheVariants as refused;

    ghost from_gives = { λ _ given. given ≡ refused.Memory };

    fn from(_: Memory) -> Self {
        CreateRefusal::Memory
    }
}

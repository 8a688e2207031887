// What the refusals of the phases come to.
use crate::refusal::Refusal;
use cnb_build::BuildFault;
use cnb_create::CreateRefusal;
use cnb_export::ExportRefusal;
use cnb_launch::LaunchFault;
use cnb_layers::ExportFault;
use cnb_rebase::{BaseFault, RebaseFault};
use cnb_record::CheckRefusal;
use cnb_restore::{RestoreFault, RestoreRefusal};
use image_files::ImageFault;
use store_prune::{PruneFault, VerifyFault};
use tree_store::StoreFault;

impl From<BuildFault> for Refusal {
    ghost use Rattle.std.specs.Prelude.{◌≡◌};
    ghost use Rattle.cnb_lifecycle.specs.PhaseFaults.{of_build};

    ghost from_gives = { λ fault given. given ≡ of_build fault };

    fn from(fault: BuildFault) -> Self {
        match fault {
            BuildFault::BuildFailed { id, code } => Refusal::BuildFailed { id, code },
            BuildFault::UnknownUnmet { id, name } => Refusal::UnknownUnmet { id, name },
            BuildFault::Api(api) => Refusal::BuildpackApi(api),
            BuildFault::Document(path, fault) => Refusal::Document(path, fault),
            BuildFault::Limit(kind) => Refusal::Limit(kind),
            BuildFault::Child => Refusal::Child,
            BuildFault::File(path) => Refusal::File(path),
            BuildFault::Memory => Refusal::Memory,
        }
    }
}

impl From<RebaseFault> for Refusal {
    ghost use Rattle.std.specs.Prelude.{◌≡◌};
    ghost use Rattle.cnb_lifecycle.specs.PhaseFaults.{of_rebase};

    ghost from_gives = { λ fault given. given ≡ of_rebase fault };

    fn from(fault: RebaseFault) -> Self {
        match fault {
            RebaseFault::NoImage(name) => Refusal::NoImage(name),
            RebaseFault::TopDiffers { recorded, found } => Refusal::TopDiffers { recorded, found },
            RebaseFault::TargetDiffers { old, new } => Refusal::TargetDiffers { old, new },
            RebaseFault::Document(path, fault) => Refusal::Document(path, fault),
            RebaseFault::Limit(kind) => Refusal::Limit(kind),
            RebaseFault::File(path) => Refusal::File(path),
            RebaseFault::Memory => Refusal::Memory,
        }
    }
}

impl From<ImageFault> for Refusal {
    ghost use Rattle.std.specs.Prelude.{◌≡◌};
    ghost use Rattle.cnb_lifecycle.specs.PhaseFaults.{of_image};

    ghost from_gives = { λ fault given. given ≡ of_image fault };

    fn from(fault: ImageFault) -> Self {
        match fault {
            ImageFault::NoImage(name) => Refusal::NoImage(name),
            ImageFault::Document(path, fault) => Refusal::Document(path, fault),
            ImageFault::Limit(kind) => Refusal::Limit(kind),
            ImageFault::File(path) => Refusal::File(path),
            ImageFault::Memory => Refusal::Memory,
        }
    }
}

impl From<StoreFault> for Refusal {
    ghost use Rattle.std.specs.Prelude.{◌≡◌};
    ghost use Rattle.cnb_lifecycle.specs.PhaseFaults.{of_store};

    ghost from_gives = { λ fault given. given ≡ of_store fault };

    fn from(fault: StoreFault) -> Self {
        match fault {
            StoreFault::OddFile(path) => Refusal::OddFile(path),
            StoreFault::Limit(kind) => Refusal::Limit(kind),
            StoreFault::File(path) => Refusal::File(path),
            StoreFault::NoTree(digest) => Refusal::NoTree(digest),
            StoreFault::Damaged { asked, found, bad } => Refusal::Damaged { asked, found, bad },
            StoreFault::Clash { digest } => Refusal::Clash { digest },
            StoreFault::Memory => Refusal::Memory,
        }
    }
}

impl From<BaseFault> for Refusal {
    ghost use Rattle.std.specs.Prelude.{◌≡◌};
    ghost use Rattle.cnb_lifecycle.specs.PhaseFaults.{of_base};

    ghost from_gives = { λ fault given. given ≡ of_base fault };

    fn from(fault: BaseFault) -> Self {
        match fault {
            BaseFault::Store(fault) => Refusal::from(fault),
            BaseFault::Image(fault) => Refusal::from(fault),
        }
    }
}

impl From<PruneFault> for Refusal {
    ghost use Rattle.std.specs.Prelude.{◌≡◌};
    ghost use Rattle.cnb_lifecycle.specs.PhaseFaults.{of_prune};

    ghost from_gives = { λ fault given. given ≡ of_prune fault };

    fn from(fault: PruneFault) -> Self {
        match fault {
            PruneFault::Document(path, fault) => Refusal::Document(path, fault),
            PruneFault::Limit(kind) => Refusal::Limit(kind),
            PruneFault::File(path) => Refusal::File(path),
            PruneFault::Memory => Refusal::Memory,
        }
    }
}

impl From<VerifyFault> for Refusal {
    ghost use Rattle.std.specs.Prelude.{◌≡◌};
    ghost use Rattle.cnb_lifecycle.specs.PhaseFaults.{of_verify};

    ghost from_gives = { λ fault given. given ≡ of_verify fault };

    fn from(fault: VerifyFault) -> Self {
        match fault {
            VerifyFault::NoImage(name) => Refusal::NoImage(name),
            VerifyFault::Document(path, fault) => Refusal::Document(path, fault),
            VerifyFault::Limit(kind) => Refusal::Limit(kind),
            VerifyFault::Store(fault) => Refusal::from(fault),
        }
    }
}

impl From<RestoreFault> for Refusal {
    ghost use Rattle.std.specs.Prelude.{◌≡◌};
    ghost use Rattle.cnb_lifecycle.specs.PhaseFaults.{of_restore};

    ghost from_gives = { λ fault given. given ≡ of_restore fault };

    fn from(fault: RestoreFault) -> Self {
        match fault {
            RestoreFault::NoImage(name) => Refusal::NoImage(name),
            RestoreFault::Document(path, fault) => Refusal::Document(path, fault),
            RestoreFault::Damaged { asked, found, bad } => Refusal::Damaged { asked, found, bad },
            RestoreFault::Limit(kind) => Refusal::Limit(kind),
            RestoreFault::File(path) => Refusal::File(path),
            RestoreFault::Memory => Refusal::Memory,
        }
    }
}

impl From<RestoreRefusal> for Refusal {
    ghost use Rattle.std.specs.Prelude.{◌≡◌};
    ghost use Rattle.cnb_lifecycle.specs.PhaseFaults.{of_restore_refusal};

    ghost from_gives = { λ refusal given. given ≡ of_restore_refusal refusal };

    fn from(refusal: RestoreRefusal) -> Self {
        match refusal {
            RestoreRefusal::BuildpackApi(api) => Refusal::BuildpackApi(api),
            RestoreRefusal::Fault(fault) => Refusal::from(fault),
        }
    }
}

impl From<ExportFault> for Refusal {
    ghost use Rattle.std.specs.Prelude.{◌≡◌};
    ghost use Rattle.cnb_lifecycle.specs.PhaseFaults.{of_export_fault};

    ghost from_gives = { λ fault given. given ≡ of_export_fault fault };

    fn from(fault: ExportFault) -> Self {
        match fault {
            ExportFault::NoContents(id, layer) => Refusal::NoContents(id, layer),
            ExportFault::NoPrevious(id, layer) => Refusal::NoPrevious(id, layer),
            ExportFault::TwoDefaults(id) => Refusal::TwoDefaults(id),
            ExportFault::BadPattern(id, text) => Refusal::BadPattern(id, text),
            ExportFault::NoImage(name) => Refusal::NoImage(name),
            ExportFault::Document(path, fault) => Refusal::Document(path, fault),
            ExportFault::Store(fault) => Refusal::from(fault),
        }
    }
}

impl From<CheckRefusal> for Refusal {
    ghost use Rattle.std.specs.Prelude.{◌≡◌};
    ghost use Rattle.cnb_lifecycle.specs.PhaseFaults.{of_check};

    ghost from_gives = { λ refusal given. given ≡ of_check refusal };

    fn from(refusal: CheckRefusal) -> Self {
        match refusal {
            CheckRefusal::File(path) => Refusal::File(path),
            CheckRefusal::Memory => Refusal::Memory,
            CheckRefusal::Document(path, fault) => Refusal::Document(path, fault),
            CheckRefusal::Limit(kind) => Refusal::Limit(kind),
            CheckRefusal::BuildpackApi(api) => Refusal::BuildpackApi(api),
            CheckRefusal::Order { id, ambiguous } => Refusal::Order { id, ambiguous },
            CheckRefusal::BadRecord(line) => Refusal::BadRecord(line),
            CheckRefusal::RecordDiffers(path) => Refusal::RecordDiffers(path),
        }
    }
}

impl From<ExportRefusal> for Refusal {
    ghost use Rattle.std.specs.Prelude.{◌≡◌};
    ghost use Rattle.cnb_lifecycle.specs.PhaseFaults.{of_export};

    ghost from_gives = { λ refusal given. given ≡ of_export refusal };

    fn from(refusal: ExportRefusal) -> Self {
        match refusal {
            ExportRefusal::BuildpackApi(api) => Refusal::BuildpackApi(api),
            ExportRefusal::Fault(fault) => Refusal::from(fault),
        }
    }
}

impl From<LaunchFault> for Refusal {
    ghost use Rattle.std.specs.Prelude.{◌≡◌};
    ghost use Rattle.cnb_lifecycle.specs.PhaseFaults.{of_launch};

    ghost from_gives = { λ fault given. given ≡ of_launch fault };

    fn from(fault: LaunchFault) -> Self {
        match fault {
            LaunchFault::NoImage(name) => Refusal::NoImage(name),
            LaunchFault::Exists(path) => Refusal::Exists(path),
            LaunchFault::ShellProcess(word) => Refusal::ShellProcess(word),
            LaunchFault::NoProcess(kind) => Refusal::NoProcess(kind),
            LaunchFault::ExecFailed { path, code } => Refusal::ExecFailed { path, code },
            LaunchFault::BadExecOutput(path) => Refusal::BadExecOutput(path),
            LaunchFault::Child => Refusal::Child,
            LaunchFault::Document(path, fault) => Refusal::Document(path, fault),
            LaunchFault::Store(fault) => Refusal::from(fault),
            LaunchFault::Memory => Refusal::Memory,
        }
    }
}

impl From<CreateRefusal> for Refusal {
    ghost use Rattle.std.specs.Prelude.{◌≡◌};
    ghost use Rattle.cnb_lifecycle.specs.PhaseFaults.{of_create};

    ghost from_gives = { λ refusal given. given ≡ of_create refusal };

    fn from(refusal: CreateRefusal) -> Self {
        match refusal {
            CreateRefusal::Detect(refusal) => Refusal::from(refusal),
            CreateRefusal::Restore(fault) => Refusal::from(fault),
            CreateRefusal::Build(fault) => Refusal::from(fault),
            CreateRefusal::Export(fault) => Refusal::from(fault),
            CreateRefusal::Memory => Refusal::Memory,
        }
    }
}

// What an export is given, and what each of its buildpacks is exported with.
ghost use Rattle.std.specs.Prelude.{◌≡◌, ◌≤◌, IfOk, length};
ghost use Rattle.cnb_layers.specs.Frame.{KeepsLimits};

use cnb_toml::BpId;
use cnb_world::{Memory, Path};
use image_docs::LayerRow;
use std::alloc::Global;

/// The folders of an export: the store, the layers that buildpacks left, the application and the launcher.
#[derive(Drop)]
pub struct ExportFrame {
    pub store: Path,
    pub layers: Path,
    pub app: Path,
    pub launcher: Path,
}

impl ExportFrame {
    pub fn new(
        alloc: Global,
        store: &Path,
        layers: &Path,
        app: &Path,
        launcher: &Path,
    ) -> Result<ExportFrame, Memory>
        requires store { length store.now ≤ 4096 }
        requires layers { length layers.now ≤ 4096 }
        requires app { length app.now ≤ 4096 }
        requires launcher { length launcher.now ≤ 4096 }
        ensures frame { IfOk result (λ frame. frame
            ≡ record { store = store.now; layers = layers.now; app = app.now; launcher = launcher.now }) }
        ensures limits { IfOk result KeepsLimits }
    {
        Ok(ExportFrame {
            store: store.copy(alloc)?,
            layers: layers.copy(alloc)?,
            app: app.copy(alloc)?,
            launcher: launcher.copy(alloc)?,
        })
    }
}

/// What a buildpack is exported with: its id, the folder of its layers, the store that their trees go into, and the
/// layers of the previous image.
#[derive(Drop)]
pub(crate) struct BuildpackFrame<'a> {
    pub(crate) id: &'a BpId,
    pub(crate) folder: &'a Path,
    pub(crate) store: &'a Path,
    pub(crate) previous: &'a [LayerRow],
}

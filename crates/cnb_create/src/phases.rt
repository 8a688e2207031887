// What the phases before the export come to.
use cnb_restore::Restored;
use image_docs::Analyzed;
use run_docs::GroupDoc;

/// What was analyzed, the chosen group, how many entries its plan has, and what was restored.
#[derive(Drop)]
pub(crate) struct Phases {
    pub(crate) analyzed: Analyzed,
    pub(crate) group: GroupDoc,
    pub(crate) entries: usize,
    pub(crate) restored: Restored,
}

// Which names a text is.
use crate::given::{ample, given_text};
use cnb_toml::{BpId, BpVersion, ImageName, LayerName, ProcType, is_target_name};
use row_files::{Row, RowFault};
use std::alloc::{AllocError, Global};

fn is_image(alloc: Global, text: &str) -> bool {
    match ImageName::parse(alloc, text) {
        Ok(name) => name.copy(alloc).is_ok(),
        Err(_) => false,
    }
}

fn add(kinds: &mut String, kind: &str, is_one: bool) -> Result<(), AllocError> {
    if is_one {
        kinds.push_str(kind)?;
        kinds.push_str(";")?;
    }
    Ok(())
}

/// The kinds of names that a text is, as `id;layer;`.
pub(crate) fn kinds_of(alloc: Global, row: &Row) -> Result<String, RowFault> {
    let text = given_text(alloc, row, "text")?;
    let text = text.as_str();
    let mut kinds = String::new(alloc);
    add(&mut kinds, "id", BpId::parse(alloc, text).is_ok())?;
    add(&mut kinds, "version", BpVersion::parse(alloc, text).is_ok())?;
    add(&mut kinds, "layer", LayerName::parse(alloc, text).is_ok())?;
    add(&mut kinds, "process", ProcType::parse(alloc, text).is_ok())?;
    add(&mut kinds, "image", is_image(alloc, text))?;
    add(&mut kinds, "target", is_target_name(text))?;
    Ok(kinds)
}

/// The name of the folders of an id.
pub(crate) fn folder_of(alloc: Global, row: &Row) -> Result<String, RowFault> {
    match BpId::parse(alloc, row.text(alloc, "text")?) {
        Ok(id) => {
            let folder = ample(id.folder(alloc))?;
            Ok(String::from_str(alloc, folder.as_str())?)
        }
        Err(fault) => Ok(format!(in alloc; "{fault}")?),
    }
}

// Rows of which the last of each key counts.
ghost use Rattle.std.specs.Prelude.{◌≡◌, IfOk, List as Seq, ℕ};
ghost use Rattle.cnb_export.specs.Ascending.{label_key, last_of_each, process_key};

use cnb_toml::{Label, Process};
use cnb_world::{List, Memory, Path, Text};
use indexmap::IndexMap;
use std::alloc::Global;

/// A row with a key.
pub(crate) trait Keyed: Sized + Drop {
    ghost key_of: { Self → Seq ℕ };

    fn key(&self) -> &str
        ensures { result.now ≡ key_of self.now };

    fn copy(&self, alloc: Global) -> Result<Self, Memory>
        ensures { IfOk result (λ copy. copy ≡ self.now) };
}

impl Keyed for Label {
    ghost key_of = { label_key };

    fn key(&self) -> &str {
        self.key.as_str()
    }

    fn copy(&self, alloc: Global) -> Result<Label, Memory> {
        Ok(Label {
            key: self.key.copy(alloc)?,
            value: self.value.copy(alloc)?,
        })
    }
}

impl Keyed for Process {
    ghost key_of = { process_key };

    fn key(&self) -> &str {
        self.kind.as_str()
    }

    fn copy(&self, alloc: Global) -> Result<Process, Memory> {
        Ok(Process {
            kind: self.kind.copy(alloc)?,
            command: copy_texts(alloc, &self.command)?,
            args: copy_texts(alloc, &self.args)?,
            default: self.default,
            dir: copy_path(alloc, &self.dir)?,
        })
    }
}

fn copy_texts(alloc: Global, texts: &List<Text>) -> Result<List<Text>, Memory>
    ensures { IfOk result (λ copies. copies ≡ texts.now) }
{
    let mut copies = List::new(alloc);
    for text in texts.as_slice() {
        copies.push(text.copy(alloc)?)?;
    }
    Ok(copies)
}

fn copy_path(alloc: Global, path: &Option<Path>) -> Result<Option<Path>, Memory>
    ensures { IfOk result (λ copy. copy ≡ path.now) }
{
    match path {
        Some(path) => Ok(Some(path.copy(alloc)?)),
        None => Ok(None),
    }
}

/// The last row of each key, ascending by their keys' bytes.
pub(crate) fn last_of_each<T: Keyed>(alloc: Global, rows: &[T]) -> Result<List<T>, Memory>
    ensures { IfOk result (λ last. last ≡ last_of_each T.key_of rows.now) }
{
    let mut latest = IndexMap::new(alloc);
    for row in rows {
        latest.insert(row.key(), row.copy(alloc)?)?;
    }
    latest.sort_keys()?;
    Ok(List::from_vec(latest.into_values().collect(alloc)?))
}

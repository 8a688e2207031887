// Why a name or a document is refused.
ghost use Rattle.std.specs.Prelude.{◌≡◌, [], IfOk};
ghost use Rattle.cnb_toml.specs.Reading.{IsFault, Answers, under, fault_under, key_path, of_name};

use cnb_world::{Memory, Text};
use std::alloc::{AllocError, Global};
use std::fmt;
use thiserror::Error;

/// Why a text is no name.
#[derive(Clone, Copy, Debug, PartialEq, Eq, Error)]
pub enum NameFault {
    #[error("not of the name's form")]
    Bad,
    #[error("out of memory")]
    Memory,
}

/// Why a document is refused. A text is a key path: keys joined by `.`, places in lists as numbers from 0.
#[derive(Drop, Error)]
pub enum DocFault {
    #[error("no such file")]
    Absent,
    #[error("not UTF-8")]
    NotUtf8,
    #[error("not TOML")]
    NotToml,
    #[error("`{}` holds what metadata can't", .0.as_str())]
    MetaKind(Text),
    #[error("`{}` is missing", .0.as_str())]
    Missing(Text),
    #[error("`{}` is wrong", .0.as_str())]
    Wrong(Text),
    #[error("`{}` is not of the name's form", .0.as_str())]
    Name(Text),
    #[error("out of memory")]
    Memory,
}

impl fmt::Debug for DocFault {
    fn fmt<W: fmt::Write>(&self, f: &mut fmt::Formatter<W>) -> fmt::Result {
        fmt::Display::fmt(self, f)
    }
}

impl From<AllocError> for NameFault {
    ghost use Rattle.std.specs.Prelude.{◌≡◌};
    ghost use Rattle.cnb_toml.specs.declared.fault.NameFault.TheVariants.{Memory};

    ghost from_gives = { λ _ fault. fault ≡ Memory };

    fn from(_: AllocError) -> Self {
        NameFault::Memory
    }
}

impl From<Memory> for DocFault {
    ghost use Rattle.std.specs.Prelude.{◌≡◌};
    ghost use Rattle.cnb_toml.specs.declared.fault.DocFault.TheVariants.{Memory};

    ghost from_gives = { λ _ fault. fault ≡ Memory };

    fn from(_: Memory) -> Self {
        DocFault::Memory
    }
}

impl DocFault {
    /// The fault of a required key that isn't there.
    pub fn missing(alloc: Global, key: &str) -> DocFault
        ensures { IsFault result (DocFault.Missing key.now) }
    {
        Text::of(alloc, key).map_or(DocFault::Memory, DocFault::Missing)
    }

    /// The fault of a value of another kind, or out of its stated form. Its path is empty.
    pub fn wrong(alloc: Global) -> DocFault
        ensures { result ≡ DocFault.Wrong [] }
    {
        DocFault::Wrong(Text::from_string(String::new(alloc)))
    }

    /// The fault of a text that is out of its name's form. Its path is empty.
    pub fn name(alloc: Global) -> DocFault
        ensures { result ≡ DocFault.Name [] }
    {
        DocFault::Name(Text::from_string(String::new(alloc)))
    }

    /// The fault with a key, or a place of a list, in front of its path.
    pub fn under(self, alloc: Global, key: &str) -> DocFault
        ensures { IsFault result (fault_under key.now self) }
    {
        match self {
            DocFault::MetaKind(path) => key_path(alloc, key, &path).map_or(
                DocFault::Memory,
                DocFault::MetaKind,
            ),
            DocFault::Missing(path) => key_path(alloc, key, &path).map_or(
                DocFault::Memory,
                DocFault::Missing,
            ),
            DocFault::Wrong(path) => key_path(alloc, key, &path).map_or(
                DocFault::Memory,
                DocFault::Wrong,
            ),
            DocFault::Name(path) => key_path(alloc, key, &path).map_or(
                DocFault::Memory,
                DocFault::Name,
            ),
            other => other,
        }
    }
}

fn key_path(alloc: Global, key: &str, path: &Text) -> Result<Text, Memory>
    ensures { IfOk result (λ text. text ≡ key_path key.now path.now) }
{
    if path.as_str().is_empty() {
        return Text::of(alloc, key);
    }
    let mut text = String::from_str(alloc, key)?;
    text.push_str(".")?;
    text.push_str(path.as_str())?;
    Ok(Text::from_string(text))
}

/// What was read below a key: a fault's path begins with the key.
pub fn under<T: Drop>(alloc: Global, key: &str, answer: Result<T, DocFault>) -> Result<T, DocFault>
    ensures { Answers result (under key.now answer) }
{
    match answer {
        Ok(value) => Ok(value),
        Err(fault) => Err(fault.under(alloc, key)),
    }
}

/// What the reader of a name answers, as a document's reader.
pub fn of_name<T: Drop>(alloc: Global, answer: Result<T, NameFault>) -> Result<T, DocFault>
    ensures { result ≡ of_name answer }
{
    match answer {
        Ok(name) => Ok(name),
        Err(NameFault::Bad) => Err(DocFault::name(alloc)),
        Err(NameFault::Memory) => Err(DocFault::Memory),
    }
}

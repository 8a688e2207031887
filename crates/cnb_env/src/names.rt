// What the names of environment files say.
ghost use Rattle.std.specs.Prelude.{◌≡◌};
ghost use Rattle.cnb_env.specs.Names.{has_equals, is_ignored, is_no_variable, suffix_of, variable_of};

/// Which part of a file's name is its variable.
#[derive(Clone, Copy, Debug, PartialEq, Eq)]
pub(crate) enum Naming {
    Whole,
    BeforeDot,
}

/// The variable that a file's name says, and its suffix. A name without a dot has the empty suffix.
pub(crate) fn split_name(name: &str) -> (&str, &str)
    ensures variable { result.0.now ≡ variable_of name.now }
    ensures suffix { result.1.now ≡ suffix_of name.now }
{
    match name.split_once('.') {
        Some(parts) => parts,
        None => (name, ""),
    }
}

fn has_equals(name: &[u8]) -> bool
    ensures { result ≡ has_equals name.now }
{
    name.iter().any(|byte| *byte == b'=')
}

pub(crate) fn is_no_variable(name: &str) -> bool
    ensures { result ≡ is_no_variable name.now }
{
    name.is_empty() || has_equals(name.as_bytes())
}

/// Whether a file of this name is passed over.
pub(crate) fn is_ignored(naming: Naming, name: &str) -> bool
    ensures { result ≡ is_ignored naming name.now }
{
    match naming {
        Naming::Whole => is_no_variable(name),
        Naming::BeforeDot => is_no_variable(split_name(name).0),
    }
}

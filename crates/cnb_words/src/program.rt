// The program's own word.
ghost use Rattle.std.specs.Prelude.{◌≡◌, IfSome, IsTrue};
ghost use Rattle.std.specs.Option.{option_copied};
ghost use Rattle.cnb_toml.specs.Names.{is_process_type};
ghost use Rattle.cnb_words.specs.Program.{is_launcher, is_process_path, last_part, process_type, root_of};

use cnb_toml::ProcType;
use cnb_world::{Path, parent_text};

// The part of a path behind its folder.
fn last_part(path: &str) -> &[u8]
    ensures { result.now ≡ last_part path.now }
{
    let front = parent_text(path).len() + 1;
    path.as_bytes().get(front..).unwrap_or(&[])
}

fn is_process_path(path: &str) -> bool
    ensures { result ≡ is_process_path path.now }
{
    Path::is_short(path)
        && parent_text(path).as_bytes().ends_with(b"/cnb/process")
        && ProcType::is_type(last_part(path))
}

/// Whether the program is started as the launcher.
pub(crate) fn is_launcher(program: &str) -> bool
    ensures { result ≡ is_launcher program.now }
{
    program == "launcher"
        || Path::is_short(program) && program.as_bytes().ends_with(b"/cnb/lifecycle/launcher")
}

/// The type of the process that the program is started as, if it is one.
pub(crate) fn process_type(program: &str) -> Option<&str>
    ensures kind { option_copied result ≡ process_type program.now }
    ensures is_type { IfSome result (λ kind. IsTrue (is_process_type kind.now)) }
{
    if is_process_path(program) {
        str::from_utf8(last_part(program)).ok()
    } else {
        None
    }
}

/// The root that the launcher or the process stands in.
pub(crate) fn root_of(program: &str) -> &str
    ensures { result.now ≡ root_of program.now }
{
    parent_text(parent_text(parent_text(program)))
}

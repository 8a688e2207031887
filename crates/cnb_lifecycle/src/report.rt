// The line of a refusal.
ghost use Rattle.std.specs.Prelude.{◌≡◌, IfOk};
ghost use Rattle.cnb_lifecycle.specs.Report.{error_line};

use crate::refusal::Refusal;
use cnb_world::{Memory, Text};
use std::alloc::Global;

/// The one line of a refusal.
pub(crate) fn error_line(alloc: Global, refusal: &Refusal) -> Result<Text, Memory>
    ensures { IfOk result (λ line. line ≡ error_line refusal.now) }
{
    let code = refusal.code();
    let name = refusal.name();
    let line = match refusal.detail(alloc)? {
        Some(detail) => {
            let detail = detail.as_str();
            format!(in alloc; "error {code} {name} {detail}\n")?
        }
        None => format!(in alloc; "error {code} {name}\n")?,
    };
    Ok(Text::from_string(line))
}

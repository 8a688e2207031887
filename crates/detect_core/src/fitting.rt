// Which members are for a target.
ghost use Rattle.std.specs.Prelude.{◌≡◌};
ghost use Rattle.detect_core.specs.Answer.{is_fit};

use bp_docs::fits;
use cnb_toml::Target;
use order_expand::Member;

/// Whether a member is for a target, where one is known.
pub fn is_fit(target: &Option<Target>, member: &Member) -> bool
    ensures { result ≡ is_fit target.now member.now }
{
    fits(&member.targets, target.as_ref())
}

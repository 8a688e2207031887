// Whether exactly the buildpacks that have to be asked are answered, in order.
ghost use Rattle.std.specs.Prelude.{◌≡◌, ◌<◌, ◌^◌, IfSome, List as Seq};
ghost use Rattle.cnb_toml.specs.declared.names.Key.{Key};
ghost use Rattle.detect_core.specs.Kept.{keys_of};
ghost use Rattle.detect_record.specs.Proving.{same_keys};
ghost use Rattle.detect_record.specs.Asked.{IsMet, met_behind, put_member, put_members};

use cnb_toml::Target;
use detect_core::{Kept, is_fit};
use order_expand::Member;

// How many of the answered buildpacks were met in their order, behind the one that is answered at this place.
fn met_behind(met: Option<usize>, place: Option<usize>) -> Option<usize>
    requires { IfSome place (λ place. place < 2 ^ 63) }
    ensures { result ≡ met_behind met place }
{
    let met = met?;
    let place = place?;
    if place < met {
        return Some(met);
    }
    (place == met).then(|| place + 1)
}

// The same behind a member.
fn met_with(
    met: Option<usize>,
    target: &Option<Target>,
    member: &Member,
    kept: &Kept,
) -> Option<usize>
    ensures { (asked : Seq Key) → IsMet (keys_of kept.now) asked met
        → IsMet (keys_of kept.now) (put_member target.now asked member.now) result }
{
    if !is_fit(target, member) {
        return met;
    }
    met_behind(met, kept.place(&member.key))
}

/// How many of the answered buildpacks were met in their order, behind the members of a group. None is once and for all
/// where another one was met first.
pub(crate) fn met_in(
    met: Option<usize>,
    target: &Option<Target>,
    group: &[Member],
    kept: &Kept,
) -> Option<usize>
    ensures { (asked : Seq Key) → IsMet (keys_of kept.now) asked met
        → IsMet (keys_of kept.now) (put_members target.now asked group.now) result }
{
    let mut met = met;
    for member in group {
        met = met_with(met, target, member, kept);
    }
    met
}

/// Whether all answered buildpacks were met in their order, and no other.
pub(crate) fn are_all_met(met: Option<usize>, kept: &Kept) -> bool
    ensures { (asked : Seq Key) → IsMet (keys_of kept.now) asked met → result ≡ same_keys (keys_of kept.now) asked }
{
    match met {
        Some(met) => met == kept.len(),
        None => false,
    }
}

// Groups that are begun: members, and the places in the order and its composites where the group goes on.
ghost use Rattle.std.specs.Prelude.{◌≡◌, ◌++◌, ◌∷◌, [], ◌<◌, ◌≤◌, ◌+◌, ℕ, List as Seq, true, false, map, if◌then◌else◌};
ghost use Rattle.std.specs.Prelude.{IfOk, OnOk, OnErr};
ghost use Rattle.std.specs.List.{flat_map};
ghost use Rattle.bp_docs.specs.declared.descriptor.Descriptor.{Descriptor};
ghost use Rattle.order_expand.specs.declared.begun.Begun.{Begun};
ghost use Rattle.order_expand.specs.declared.begun.Place.TheVariants.{Entries, Nowhere};
ghost use Rattle.order_expand.specs.Begun.{joined, groups_in, groups_of, groups_of_waiting, groups_with, groups_left};
ghost use Rattle.order_expand.specs.Begun.{IsEnd, IsComplete, Reaches};
ghost use Rattle.order_expand.specs.MemberComponent.{member_of};
ghost use Rattle.order_expand.specs.Groups.{raw_groups, expanded};
ghost use Rattle.order_expand.specs.Steps.{entries_steps, groups_steps, order_steps, place_steps, later_steps};
ghost use Rattle.order_expand.specs.Steps.{steps_of, steps_of_waiting, steps_left};

use crate::catalog::Catalog;
use bp_docs::{Body, Descriptor, Entry, Order};
use cnb_world::{List, Memory};
use std::alloc::Global;

/// A component that stands in a group.
#[derive(Clone, Copy)]
pub(crate) struct MemberComponent<'a> {
    pub(crate) descriptor: &'a Descriptor,
    pub(crate) optional: bool,
}

/// Where a group goes on: at entries, which all come into it; at the groups of an order, of which one does, or where
/// that is optional none of them at last; or nowhere, so that it is no group. Below `levels`, composites stand for no
/// groups.
#[derive(Clone, Copy)]
pub(crate) enum Place<'a> {
    Entries {
        levels: u32,
        entries: &'a [Entry],
    },
    Groups {
        levels: u32,
        groups: &'a [List<Entry>],
        optional: bool,
    },
    Nowhere,
}

/// A group that is begun: its members so far, where it goes on, and where later, of which the last comes first.
#[derive(Drop)]
pub(crate) struct Begun<'a> {
    pub(crate) members: Vec<MemberComponent<'a>>,
    pub(crate) next: Place<'a>,
    pub(crate) later: Vec<Place<'a>>,
}

/// The place of a composite's groups, where composites nest less deep than a number of levels.
#[tactic(auto, using(crate::proofs::Levels::raw_groups_zero, crate::proofs::Levels::raw_groups_above, crate::proofs::Steps::order_steps_zero, crate::proofs::Steps::order_steps_above))]
fn place_of_order<'a>(levels: u32, order: &'a Order, optional: bool) -> Place<'a>
    ensures groups { (catalog : Seq Descriptor) → groups_in catalog result ≡ raw_groups levels catalog order.now ++
        (if optional then [] ∷ [] else []) }
    ensures steps { (catalog : Seq Descriptor) → (behind : ℕ) → place_steps catalog result behind ≡ order_steps
        levels catalog order.now behind }
{
    let groups = order.as_slice();
    if levels == 0 {
        return Place::Groups {
            levels,
            groups: &groups[..0],
            optional,
        };
    }
    Place::Groups {
        levels: levels - 1,
        groups,
        optional,
    }
}

/// Adds a member, and goes on at the entries behind it.
fn add_member<'a>(
    begun: &mut Begun<'a>,
    chosen: MemberComponent<'a>,
    levels: u32,
    behind: &'a [Entry],
) -> Result<(), Memory>
    ensures ok { OnOk result ((catalog : Seq Descriptor) → groups_of catalog begun.new ≡ groups_with catalog
        begun.old.members.items (map (λ group. member_of chosen.entry ∷ group) (expanded (raw_groups levels
        catalog) catalog behind.now)) begun.old.later.items) }
    ensures err { OnErr result ((catalog : Seq Descriptor) → groups_of catalog begun.new ≡ groups_of catalog
        begun.old) }
    ensures steps { OnOk result ((catalog : Seq Descriptor) → steps_of catalog begun.new ≡ entries_steps
        (order_steps levels catalog) catalog behind.now (later_steps catalog begun.old.later.items)) }
{
    begun.members.push(chosen)?;
    begun.next = Place::Entries {
        levels,
        entries: behind,
    };
    Ok(())
}

/// Goes on at the groups of a composite's order, and later at the entries behind it.
fn open_order<'a>(
    begun: &mut Begun<'a>,
    levels: u32,
    order: &'a Order,
    optional: bool,
    behind: &'a [Entry],
) -> Result<(), Memory>
    ensures ok { OnOk result ((catalog : Seq Descriptor) → groups_of catalog begun.new ≡ groups_with catalog
        begun.old.members.items (joined (raw_groups levels catalog order.now) (expanded (raw_groups levels catalog)
        catalog behind.now) ++ (if optional then expanded (raw_groups levels catalog) catalog behind.now else []))
        begun.old.later.items) }
    ensures err { OnErr result ((catalog : Seq Descriptor) → groups_of catalog begun.new ≡ groups_of catalog
        begun.old) }
    ensures steps { OnOk result ((catalog : Seq Descriptor) → steps_of catalog begun.new ≡ order_steps levels
        catalog order.now (entries_steps (order_steps levels catalog) catalog behind.now (later_steps catalog
        begun.old.later.items))) }
{
    begun.later.push(Place::Entries {
        levels,
        entries: behind,
    })?;
    begun.next = place_of_order(levels, order, optional);
    Ok(())
}

/// Goes on at an entry: a component is one member more, and of a composite the groups come next, the entries behind it
/// later.
fn meet_entry<'a>(
    catalog: &'a Catalog,
    begun: &mut Begun<'a>,
    levels: u32,
    entry: &'a Entry,
    behind: &'a [Entry],
) -> Result<(), Memory>
    ensures ok { OnOk result (groups_of catalog.now begun.new ≡ groups_with catalog.now begun.old.members.items
        (expanded (raw_groups levels catalog.now) catalog.now (entry.now ∷ behind.now)) begun.old.later.items) }
    ensures err { OnErr result (groups_of catalog.now begun.new ≡ groups_of catalog.now begun.old) }
    ensures steps { OnOk result (steps_of catalog.now begun.new < entries_steps (order_steps levels catalog.now)
        catalog.now (entry.now ∷ behind.now) (later_steps catalog.now begun.old.later.items)) }
{
    let optional = entry.optional;
    match catalog.named(entry) {
        None => {
            begun.next = Place::Nowhere;
            Ok(())
        },
        Some(found) => match &found.descriptor.body {
            Body::Component { .. } => {
                let descriptor = found.descriptor;
                let chosen = MemberComponent {
                    descriptor,
                    optional,
                };
                add_member(begun, chosen, levels, behind)?;
                Ok(())
            },
            Body::Composite(order) => {
                open_order(begun, levels, order, optional, behind)?;
                Ok(())
            },
            Body::Foreign(_) => {
                begun.next = Place::Nowhere;
                Ok(())
            },
        },
    }
}

/// Lets a group wait that is begun with the same members, and goes on at another place.
fn set_aside<'a>(
    alloc: Global,
    current: &Begun<'a>,
    waiting: &mut Vec<Begun<'a>>,
    next: Place<'a>,
) -> Result<(), Memory>
    ensures ok { OnOk result ((catalog : Seq Descriptor) → groups_of_waiting catalog waiting.new.items ≡
        groups_with catalog current.now.members.items (groups_in catalog next.entry) current.now.later.items ++
        groups_of_waiting catalog waiting.old.items) }
    ensures err { OnErr result (waiting.new.items ≡ waiting.old.items) }
    ensures steps { OnOk result ((catalog : Seq Descriptor) → steps_of_waiting catalog waiting.new.items ≤
        steps_of_waiting catalog waiting.old.items + (place_steps catalog next.entry (later_steps catalog
        current.now.later.items) + 1)) }
{
    let members = Vec::from_slice(alloc, current.members.as_slice())?;
    let later = Vec::from_slice(alloc, current.later.as_slice())?;
    waiting.push(Begun {
        members,
        next,
        later,
    })?;
    Ok(())
}

/// Lets the groups behind the one that is chosen wait, where there are any.
fn set_others_aside<'a>(
    alloc: Global,
    current: &Begun<'a>,
    waiting: &mut Vec<Begun<'a>>,
    levels: u32,
    groups: &'a [List<Entry>],
    optional: bool,
) -> Result<(), Memory>
    ensures ok { OnOk result ((catalog : Seq Descriptor) → groups_of_waiting catalog waiting.new.items ≡
        groups_with catalog current.now.members.items (flat_map (expanded (raw_groups levels catalog) catalog)
        groups.now ++ (if optional then [] ∷ [] else [])) current.now.later.items ++ groups_of_waiting catalog
        waiting.old.items) }
    ensures err { OnErr result (waiting.new.items ≡ waiting.old.items) }
    ensures steps { OnOk result ((catalog : Seq Descriptor) → steps_of_waiting catalog waiting.new.items ≤
        steps_of_waiting catalog waiting.old.items + (groups_steps (order_steps levels catalog) catalog groups.now
        (later_steps catalog current.now.later.items) + 1)) }
{
    let next = Place::Groups {
        levels,
        groups,
        optional,
    };
    if optional {
        return set_aside(alloc, current, waiting, next);
    }
    if groups.is_empty() {
        return Ok(());
    }
    set_aside(alloc, current, waiting, next)
}

/// The place behind an optional composite that is left out, or none where it is required.
fn place_of_none<'a>(levels: u32, optional: bool) -> Place<'a>
    ensures groups { (catalog : Seq Descriptor) → groups_in catalog result ≡ (if optional then [] ∷ [] else []) }
    ensures steps { (catalog : Seq Descriptor) → (behind : ℕ) → place_steps catalog result behind < behind + 2 }
{
    if optional {
        Place::Entries {
            levels,
            entries: &[],
        }
    } else {
        Place::Nowhere
    }
}

/// Goes on at the first of some groups. The others wait.
fn choose_group<'a>(
    alloc: Global,
    current: &mut Begun<'a>,
    waiting: &mut Vec<Begun<'a>>,
    levels: u32,
    groups: &'a [List<Entry>],
    optional: bool,
) -> Result<(), Memory>
    ensures ok { OnOk result ((catalog : Seq Descriptor) → groups_left catalog current.new waiting.new.items ≡
        groups_with catalog current.old.members.items (flat_map (expanded (raw_groups levels catalog) catalog)
        groups.now ++ (if optional then [] ∷ [] else [])) current.old.later.items ++ groups_of_waiting catalog
        waiting.old.items) }
    ensures err { OnErr result ((catalog : Seq Descriptor) → groups_left catalog current.new waiting.new.items ≡
        groups_left catalog current.old waiting.old.items) }
    ensures steps { OnOk result ((catalog : Seq Descriptor) → steps_left catalog current.new waiting.new.items <
        groups_steps (order_steps levels catalog) catalog groups.now (later_steps catalog current.old.later.items)
        + steps_of_waiting catalog waiting.old.items) }
{
    match groups.split_first() {
        Some((first, others)) => {
            set_others_aside(alloc, current, waiting, levels, others, optional)?;
            current.next = Place::Entries {
                levels,
                entries: first.as_slice(),
            };
            Ok(())
        },
        None => {
            current.next = place_of_none(levels, optional);
            Ok(())
        },
    }
}

/// How far a step came: there are more to go, or the group at hand is complete, or no group is left.
#[derive(Clone, Copy)]
pub(crate) enum Reached {
    On,
    Complete,
    End,
}

/// Goes on at the latest of the places that come later. Where there is none, the group is complete.
fn go_back(begun: &mut Begun) -> Reached
    requires { IsEnd begun.old.next }
    ensures groups { (catalog : Seq Descriptor) → groups_of catalog begun.new ≡ groups_of catalog begun.old }
    ensures reaches { (catalog : Seq Descriptor) → (waiting : Seq Begun)
        → Reaches catalog (steps_left catalog begun.old waiting) result begun.new waiting }
{
    match begun.later.pop() {
        Some(place) => {
            begun.next = place;
            Reached::On
        },
        None => Reached::Complete,
    }
}

/// Goes on with the latest of the groups that wait. Where there is none, no group is left.
fn take_waiting<'a>(current: &mut Begun<'a>, waiting: &mut Vec<Begun<'a>>) -> Reached
    requires { current.old.next ≡ Nowhere }
    ensures groups { (catalog : Seq Descriptor)
        → groups_left catalog current.new waiting.new.items ≡ groups_left catalog current.old waiting.old.items }
    ensures reaches { (catalog : Seq Descriptor)
        → Reaches catalog (steps_left catalog current.old waiting.old.items) result current.new waiting.new.items }
{
    match waiting.pop() {
        Some(begun) => {
            *current = begun;
            Reached::On
        },
        None => Reached::End,
    }
}

/// Goes on at the first of some entries, or behind them.
fn go_on_in_entries<'a>(
    catalog: &'a Catalog,
    current: &mut Begun<'a>,
    levels: u32,
    entries: &'a [Entry],
) -> Result<Reached, Memory>
    requires { current.old.next ≡ Entries levels entries }
    ensures groups { groups_of catalog.now current.new ≡ groups_of catalog.now current.old }
    ensures reaches { IfOk result (λ reached. (waiting : Seq Begun)
        → Reaches catalog.now (steps_left catalog.now current.old waiting) reached current.new waiting) }
{
    match entries.split_first() {
        Some((entry, behind)) => {
            meet_entry(catalog, current, levels, entry, behind)?;
            Ok(Reached::On)
        },
        None => Ok(go_back(current)),
    }
}

/// Goes on by one place.
fn go_on<'a>(
    alloc: Global,
    catalog: &'a Catalog,
    current: &mut Begun<'a>,
    waiting: &mut Vec<Begun<'a>>,
) -> Result<Reached, Memory>
    ensures groups { groups_left catalog.now current.new waiting.new.items ≡
        groups_left catalog.now current.old waiting.old.items }
    ensures reaches { IfOk result (λ reached. Reaches catalog.now
        (steps_left catalog.now current.old waiting.old.items) reached current.new waiting.new.items) }
{
    match current.next {
        Place::Entries { levels, entries } => {
            let reached = go_on_in_entries(catalog, current, levels, entries)?;
            Ok(reached)
        },
        Place::Groups {
            levels,
            groups,
            optional,
        } => {
            choose_group(alloc, current, waiting, levels, groups, optional)?;
            Ok(Reached::On)
        },
        Place::Nowhere => Ok(take_waiting(current, waiting)),
    }
}

/// Goes on until the group at hand is complete. False where no group is left.
pub(crate) fn complete_next<'a>(
    alloc: Global,
    catalog: &'a Catalog,
    current: &mut Begun<'a>,
    waiting: &mut Vec<Begun<'a>>,
) -> Result<bool, Memory>
    ensures groups { groups_left catalog.now current.new waiting.new.items ≡ groups_left catalog.now current.old
        waiting.old.items }
    ensures complete { IfOk result (λ found. found ≡ true → IsComplete catalog.now current.new) }
    ensures end { IfOk result (λ found. found ≡ false → groups_left catalog.now current.new waiting.new.items ≡ []) }
{
    'steps: loop {
        let reached = go_on(alloc, catalog, current, waiting)?;
        match reached {
            Reached::On => {},
            Reached::Complete => return Ok(true),
            Reached::End => return Ok(false),
        }
    }
}

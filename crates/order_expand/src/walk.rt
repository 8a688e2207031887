// The listed groups, one after another.
ghost use Rattle.std.specs.Prelude.{◌≡◌, ◌++◌, ◌∷◌, [], if◌then◌else◌, IfOk, OnOk, OnErr, IsOk, MatchOption, map};
ghost use Rattle.std.specs.List.{list_any};
ghost use Rattle.order_expand.specs.Check.{checked};
ghost use Rattle.order_expand.specs.MemberComponent.{clears_env, member_of, targets_of};
ghost use Rattle.order_expand.specs.Fingerprints.{member_fingerprint};
ghost use Rattle.order_expand.specs.Groups.{distinct, same_id, listed_groups};

use crate::begun::{Begun, MemberComponent, Place, complete_next};
use crate::catalog::Catalog;
use crate::fingerprints::fingerprint_of;
use crate::member::{Group, Member};
use crate::table::at;
use bp_docs::{Body, Order, Targets};
use cnb_world::{List, Memory};
use std::alloc::Global;
use std::marker::Model;

/// How many levels of groups stand below those of the order: those of sixteen composites.
const LEVELS: u32 = 16;

/// A walk over the listed groups of an order. It makes one group at a time, and keeps the one that is begun, and for
/// each composite in it with groups that are still to be tried, one that waits. Contracts see the groups that are left.
#[derive(Drop)]
pub struct Walk<'a> {
    alloc: Global,
    catalog: &'a Catalog,
    current: Begun<'a>,
    waiting: Vec<Begun<'a>>,
}

impl<'a> Model for Walk<'a> {
    ghost use Rattle.std.specs.Prelude.{List, map};
    ghost use Rattle.order_expand.specs.declared.member.Member.{Member};
    ghost use Rattle.order_expand.specs.Begun.{groups_left};
    ghost use Rattle.order_expand.specs.Groups.{distinct, same_id};

    ghost Value = { List (List Member) };

    ghost view = { λ walk. map (distinct same_id) (groups_left walk.catalog.now walk.current walk.waiting.items) };
}

fn clears_env(body: &Body) -> bool
    ensures { result ≡ clears_env body.now }
{
    match body {
        Body::Component { clear_env, .. } => *clear_env,
        _ => false,
    }
}

fn share_targets(alloc: Global, body: &Body) -> Result<Targets, Memory>
    ensures { IfOk result (λ targets. targets ≡ targets_of body.now) }
{
    match body {
        Body::Component { targets, .. } => targets.share(),
        _ => Targets::new(alloc, List::new(alloc)),
    }
}

fn member(alloc: Global, chosen: &MemberComponent) -> Result<Member, Memory>
    ensures { IfOk result (λ member. member ≡ member_of chosen.now) }
{
    let descriptor = chosen.descriptor;
    let key = descriptor.key.copy(alloc)?;
    let targets = share_targets(alloc, &descriptor.body)?;
    Ok(Member {
        key,
        optional: chosen.optional,
        clear_env: clears_env(&descriptor.body),
        targets,
    })
}

/// Whether a member has a component's id: their fingerprints tell most ids apart.
fn is_of_id(member: &Member, print: u32, chosen: &MemberComponent, wanted: u32) -> bool
    requires print { print ≡ member_fingerprint member.now }
    requires wanted { wanted ≡ member_fingerprint (member_of chosen.now) }
    ensures { result ≡ same_id member.now (member_of chosen.now) }
{
    if print != wanted {
        return false;
    }
    member.key.id == chosen.descriptor.key.id
}

/// Whether some member has a component's id.
fn has_id(members: &[Member], prints: &[u32], chosen: &MemberComponent, wanted: u32) -> bool
    requires prints { prints.now ≡ map member_fingerprint members.now }
    requires wanted { wanted ≡ member_fingerprint (member_of chosen.now) }
    ensures { result ≡ list_any (λ member. same_id member (member_of chosen.now)) members.now }
{
    for (place, member) in members.iter().enumerate() {
        if is_of_id(member, at(prints, place), chosen, wanted) {
            return true;
        }
    }
    false
}

/// Adds a member behind the others, and its fingerprint behind theirs, unless one of its id is there.
fn add_unless_met(
    alloc: Global,
    members: &mut Group,
    prints: &mut Vec<u32>,
    chosen: &MemberComponent,
) -> Result<(), Memory>
    requires { prints.old.items ≡ map member_fingerprint members.old }
    ensures members { OnOk result (members.new ≡ (if list_any (λ member. same_id member (member_of chosen.now))
        members.old then members.old else members.old ++ member_of chosen.now ∷ [])) }
    ensures prints { OnOk result (prints.new.items ≡ map member_fingerprint members.new) }
{
    let wanted = fingerprint_of(&chosen.descriptor.key.id);
    if has_id(members.as_slice(), prints.as_slice(), chosen, wanted) {
        return Ok(());
    }
    members.push(member(alloc, chosen)?)?;
    prints.push(wanted)?;
    Ok(())
}

/// The members of a group, of those with one id the first.
fn members(alloc: Global, group: &[MemberComponent]) -> Result<Group, Memory>
    ensures { IfOk result (λ members. members ≡ distinct same_id (map member_of group.now)) }
{
    let mut members = List::new(alloc);
    let mut prints = Vec::new(alloc);
    for chosen in group {
        add_unless_met(alloc, &mut members, &mut prints, chosen)?;
    }
    Ok(members)
}

impl<'a> Walk<'a> {
    /// A walk that begins at the first group.
    pub fn new(alloc: Global, order: &'a Order, catalog: &'a Catalog) -> Result<Walk<'a>, Memory>
        requires { IsOk (checked catalog.now order.now) }
        ensures { IfOk result (λ walk. walk ≡ listed_groups catalog.now order.now) }
    {
        let members = Vec::new(alloc);
        let later = Vec::new(alloc);
        let waiting = Vec::new(alloc);
        let next = Place::Groups {
            levels: LEVELS,
            groups: order.as_slice(),
            optional: false,
        };
        let current = Begun {
            members,
            next,
            later,
        };
        Ok(Walk {
            alloc,
            catalog,
            current,
            waiting,
        })
    }

    /// The next group, or none behind the last.
    pub fn next(&mut self) -> Result<Option<Group>, Memory>
        ensures ok { IfOk result (λ group. MatchOption group (self.old ≡ []) (λ g. self.old ≡ g ∷ self.new)) }
        ensures end { IfOk result (λ group. MatchOption group (self.new ≡ []) (λ g. self.old ≡ g ∷ self.new)) }
        ensures err { OnErr result (self.new ≡ self.old) }
    {
        let found = complete_next(
            self.alloc,
            self.catalog,
            &mut self.current,
            &mut self.waiting,
        )?;
        if !found {
            return Ok(None);
        }
        let group = members(self.alloc, self.current.members.as_slice())?;
        self.current.next = Place::Nowhere;
        Ok(Some(group))
    }
}

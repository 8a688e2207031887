// How many groups there are, and how long they are.
ghost use Rattle.std.specs.Prelude.{◌≡◌, ◌++◌, ◌∷◌, [], List, map};
ghost use Rattle.std.specs.List.{flat_map};
ghost use Rattle.order_expand.specs.declared.member.Member.{Member};
ghost use Rattle.order_expand.specs.Sizes.{size_of};

/// One more than the greatest number of groups that an order may stand for.
const MANY: u32 = 4097;

/// One more than the greatest number of members that a group may have.
const LONG: u32 = 257;

/// The number of groups, and the number of members of the longest, each counted no further than one above its limit.
#[derive(Clone, Copy)]
pub(crate) struct Size {
    pub(crate) groups: u32,
    pub(crate) longest: u32,
}

/// The size of no groups.
#[tactic(auto, unfolding(crate::specs::Sizes::size_of))]
pub(crate) fn of_none() -> Size
    ensures { result ≡ size_of [] }
{
    Size {
        groups: 0,
        longest: 0,
    }
}

/// The size of one empty group.
#[tactic(auto, unfolding(crate::specs::Sizes::size_of))]
pub(crate) fn of_one() -> Size
    ensures { result ≡ size_of ([] ∷ []) }
{
    Size {
        groups: 1,
        longest: 0,
    }
}

impl Size {
    /// The size of the groups with a member in front of each.
    pub(crate) fn with_member(self) -> Size
        ensures { (groups : List (List Member)) → (member : Member) → self ≡ size_of groups
            → result ≡ size_of (map (λ group. member ∷ group) groups) }
    {
        if self.groups == 0 {
            return self;
        }
        Size {
            groups: self.groups,
            longest: LONG.min(self.longest.saturating_add(1)),
        }
    }

    /// The size of both lists of groups.
    pub(crate) fn plus(self, other: Size) -> Size
        ensures { (groups : List (List Member)) → (others : List (List Member)) → self ≡ size_of groups
            → other ≡ size_of others → result ≡ size_of (groups ++ others) }
    {
        Size {
            groups: MANY.min(self.groups.saturating_add(other.groups)),
            longest: self.longest.max(other.longest),
        }
    }

    /// The size of each group joined with each of those behind it.
    pub(crate) fn times(self, behind: Size) -> Size
        ensures { (fronts : List (List Member)) → (groups : List (List Member)) → self ≡ size_of fronts
            → behind ≡ size_of groups → result
            ≡ size_of (flat_map (λ front. map (λ group. front ++ group) groups) fronts) }
    {
        if self.groups == 0 || behind.groups == 0 {
            return of_none();
        }
        Size {
            groups: MANY.min(self.groups.saturating_mul(behind.groups)),
            longest: LONG.min(self.longest.saturating_add(behind.longest)),
        }
    }
}

// The rule of the ticket word, and what each step on it tells.
ghost use Rattle.std.specs.Prelude.{ℕ};

use atomic_table::{Join, Play, Split, TableRule};
use std::collections::LinkedList;
use std::marker::{Brand, PhantomData};

/// What a pass knows: the numbers that it has drawn, for how many spawners it draws, and how many of its numbers are
/// no job's. No value of it is made.
pub struct View {
    pub drawn: LinkedList<u64>,
    pub spawners: u64,
    pub late: u64,
}

/// How many jobs a round has, and how many spawners draw.
#[derive(Drop)]
pub struct RoundSize {
    pub jobs: u32,
    pub spawners: u32,
}

/// The rule of the ticket word.
pub struct Rule;

impl TableRule<(), View, RoundSize> for Rule {
    ghost use Rattle.std.specs.Prelude.{[]};
    ghost use Rattle.ticket_pool.specs.TicketRule.{TicketRule, view};

    ghost holds = { λ size. TicketRule size.jobs size.spawners };

    ghost first = { λ size. view [] size.spawners 0 };
}

/// Names the size of a round.
pub trait RoundNumbers {
    ghost jobs: { ℕ };

    ghost spawners: { ℕ };
}

impl RoundNumbers for Brand {
    ghost jobs = { 0 };

    ghost spawners = { 0 };
}

/// A draw of the next number.
pub struct Draws<N: RoundNumbers> {
    marker: PhantomData<N>,
}

impl<N: RoundNumbers> Play<(), View> for Draws<N> {
    ghost use Rattle.ticket_pool.specs.TicketRule.{Drew};

    ghost then = { λ step me number me'. Drew N.jobs N.spawners me number me' };
}

/// A look at the word.
pub struct Looks<N: RoundNumbers> {
    marker: PhantomData<N>,
}

impl<N: RoundNumbers> Play<(), View> for Looks<N> {
    ghost use Rattle.ticket_pool.specs.TicketRule.{Looked};

    ghost then = { λ step me number me'. Looked N.spawners me me' };
}

/// Names how many spawners a split gives away.
pub trait Portion {
    ghost given: { ℕ };
}

impl Portion for Brand {
    ghost given = { 0 };
}

/// A split of a pass.
pub struct Splits<P: Portion> {
    marker: PhantomData<P>,
}

impl<P: Portion> Split<View> for Splits<P> {
    ghost use Rattle.ticket_pool.specs.TicketRule.{given_part, kept_part};

    ghost left = { kept_part P.given };

    ghost right = { given_part P.given };
}

/// A join of two passes.
pub struct Joins;

impl Join<View> for Joins {
    ghost use Rattle.ticket_pool.specs.TicketRule.{joined, spent};

    ghost both = { joined };

    ghost spent = { spent };
}

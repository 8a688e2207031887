// The ticket word of a round, and the passes that draw from it.
ghost use Rattle.std.specs.Prelude.{◌≡◌, ◌+◌, ◌-◌, ◌<◌, ◌≤◌, ◌^◌, [], IfOk};
ghost use Rattle.ticket_pool.specs.Numbers.{AllBelow, Apart, IsAscending, upto};
ghost use Rattle.ticket_pool.specs.TicketRule.{IsWhole, drew, given_part, joined, kept_part, view};

use crate::rule::{Draws, Joins, Looks, Portion, RoundNumbers, RoundSize, Rule, Splits, View};
use atomic_table::{Seat, Table};
use cnb_world::Memory;
use std::alloc::Global;
use std::marker::Brand;

/// The ticket word of a round: the next number. Any thread may draw from it, by a pass; no call waits.
#[derive(Drop)]
pub struct Tickets {
    jobs: u32,
    table: Table<(), View, RoundSize, Rule, Global>,
    ghost one_word: { table.shared.table_id.words ≡ 1 },
    ghost no_slot: { table.shared.table_id.slots ≡ 0 },
    ghost keyed: { table.shared.key.jobs ≡ jobs },
    ghost small: { table.shared.key.jobs + table.shared.key.spawners < 2 ^ 32 },
}

/// A caller's token on a round, by which it draws for some of the round's spawners.
#[derive(Drop)]
pub struct Pass {
    seat: Seat<(), View>,
    ghost holds_nothing: { seat.me.1 ≡ [] },
    ghost fresh: { seat.me.0.drawn ≡ [] → seat.me.0.late ≡ 0 },
}

impl Tickets {
    ghost use Rattle.ticket_pool.specs.Passes.{DrawsNext, IsPassOf, jobs_of, spawners_of, view_of};

    /// The tickets of a round, with a pass of all its spawners that has drawn nothing.
    pub fn new(alloc: Global, jobs: u32, spawners: u32) -> Result<(Tickets, Pass), Memory>
        requires some { 1 ≤ spawners }
        requires small { jobs + spawners < 2 ^ 32 }
        ensures jobs { IfOk result (λ made. jobs_of made.0 ≡ jobs) }
        ensures spawners { IfOk result (λ made. spawners_of made.0 ≡ spawners) }
        ensures round { IfOk result (λ made. IsPassOf made.0 made.1) }
        ensures pass { IfOk result (λ made. view_of made.1 ≡ view [] spawners 0) }
    {
        let size = RoundSize { jobs, spawners };
        let (table, seat) = Table::of_words(alloc, &[0], &size)?;
        Ok((Tickets { jobs, table }, Pass { seat }))
    }

    /// Draws the next number: the pass has it besides, and the answer is that number, or `None` where it is no job's.
    pub fn draw(&self, pass: &mut Pass) -> Option<u32>
        requires round { IsPassOf self.now pass.old }
        requires room { (view_of pass.old).late < (view_of pass.old).spawners }
        ensures round { IsPassOf self.now pass.new }
        ensures drew { DrawsNext (jobs_of self.now) result (view_of pass.old) (view_of pass.new) }
        ensures ascending { IsAscending (view_of pass.new).drawn }
        ensures whole { IsWhole (spawners_of self.now) (view_of pass.new) }
    {
        let number = self.draw_by::<Brand>(pass);
        if number < u64::from(self.jobs) {
            Some(number as u32)
        } else {
            None
        }
    }

    // The step, where N names the round's size.
    fn draw_by<N: RoundNumbers>(&self, pass: &mut Pass) -> u64
        requires jobs { N.jobs ≡ jobs_of self.now }
        requires spawners { N.spawners ≡ spawners_of self.now }
        requires round { IsPassOf self.now pass.old }
        requires room { (view_of pass.old).late < (view_of pass.old).spawners }
        ensures round { IsPassOf self.now pass.new }
        ensures drew { view_of pass.new ≡ drew N.jobs (view_of pass.old) result }
        ensures greater { AllBelow result (view_of pass.old).drawn }
        ensures ascending { IsAscending (view_of pass.new).drawn }
        ensures whole { IsWhole N.spawners (view_of pass.new) }
    {
        self.table
            .shared
            .fetch_add::<Draws<N>>(&mut pass.seat, 0, 1)
    }

    /// A pass of some of the spawners of a pass that has drawn nothing.
    pub fn split(&self, pass: &mut Pass, spawners: u32) -> Pass
        requires round { IsPassOf self.now pass.old }
        requires fresh { (view_of pass.old).drawn ≡ [] }
        requires some { 1 ≤ spawners }
        requires left { spawners < (view_of pass.old).spawners }
        ensures round { IsPassOf self.now pass.new }
        ensures kept { view_of pass.new ≡ kept_part spawners (view_of pass.old) }
        ensures given_round { IsPassOf self.now result }
        ensures given { view_of result ≡ given_part spawners (view_of pass.old) }
    {
        self.split_by::<Brand>(pass, spawners)
    }

    fn split_by<P: Portion>(&self, pass: &mut Pass, spawners: u32) -> Pass
        requires named { P.given ≡ spawners }
        requires round { IsPassOf self.now pass.old }
        requires fresh { (view_of pass.old).drawn ≡ [] }
        requires some { 1 ≤ P.given }
        requires left { P.given < (view_of pass.old).spawners }
        ensures round { IsPassOf self.now pass.new }
        ensures kept { view_of pass.new ≡ kept_part P.given (view_of pass.old) }
        ensures given_round { IsPassOf self.now result }
        ensures given { view_of result ≡ given_part P.given (view_of pass.old) }
    {
        let seat = self.table.shared.split_seat::<Splits<P>>(&mut pass.seat);
        Pass { seat }
    }

    /// One pass of two, which share no number.
    pub fn join(&self, pass: &mut Pass, other: Pass)
        requires round { IsPassOf self.now pass.old }
        requires other_round { IsPassOf self.now other }
        ensures round { IsPassOf self.now pass.new }
        ensures both { view_of pass.new ≡ joined (view_of pass.old) (view_of other) }
        ensures apart { Apart (view_of pass.old).drawn (view_of other).drawn }
        ensures ascending { IsAscending (view_of pass.new).drawn }
        ensures whole { IsWhole (spawners_of self.now) (view_of pass.new) }
    {
        let Pass { seat } = other;
        self.table.shared.join_seat::<Joins>(&mut pass.seat, seat);
        self.look_by::<Brand>(pass);
    }

    // A look tells what the rule says of the pass now.
    fn look_by<N: RoundNumbers>(&self, pass: &mut Pass)
        requires spawners { N.spawners ≡ spawners_of self.now }
        requires round { IsPassOf self.now pass.old }
        ensures round { IsPassOf self.now pass.new }
        ensures same { view_of pass.new ≡ view_of pass.old }
        ensures ascending { IsAscending (view_of pass.old).drawn }
        ensures whole { IsWhole N.spawners (view_of pass.old) }
    {
        self.table.shared.load::<Looks<N>>(&mut pass.seat, 0);
    }

    /// The word, where a pass has all spawners of the round; it has drawn exactly the numbers below the word.
    pub fn close(self, pass: Pass) -> u32
        requires round { IsPassOf self pass }
        requires all { (view_of pass).spawners ≡ spawners_of self }
        ensures { (view_of pass).drawn ≡ upto result }
    {
        let Tickets { jobs: _, table } = self;
        let Pass { seat } = pass;
        let closed = table.close_with(seat);
        let word = closed.word(0);
        closed.free();
        word as u32
    }
}

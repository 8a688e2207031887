// A round of jobs.
ghost use Rattle.std.specs.Prelude.{◌≡◌, ◌+◌, ◌<◌, ◌≤◌, IfOk, None, Some, length, replicate, slice_set, vec_capacity};
ghost use Rattle.ticket_pool.specs.Law.{EachJobHasOneAnswer};
ghost use Rattle.ticket_pool.specs.Places.{HoldsJobs};

use cnb_world::{Memory, Probed};
use std::alloc::{AllocError, Global};

/// What a worker, given by its place, does in a round: it draws the next number, or ends the number that it holds.
#[derive(Drop)]
pub enum Event {
    Draw(u32),
    End(u32, Probed),
}

/// A round: the next number, the number that each worker holds, and the worker and answer of each number.
#[derive(Drop)]
pub struct Core {
    jobs: u32,
    next: u32,
    held: Vec<Option<u32>>,
    answers: Vec<Option<(u32, Probed)>>,
    ghost holds_jobs: { HoldsJobs jobs held.items },
    ghost places: { length answers.items ≡ jobs },
}

/// In each round that is over after lawful events, each job has one answer, that of the worker that drew its number.
pub fn each_job_has_one_answer()
    ensures { EachJobHasOneAnswer }
{}

impl Core {
    ghost use Rattle.std.specs.Option.{option_copied};
    ghost use Rattle.ticket_pool.specs.Core.{core_jobs, core_round, core_workers};
    ghost use Rattle.ticket_pool.specs.Round.{IsLawful, after, answer_of, number_of, start};
    ghost use Rattle.ticket_pool.specs.declared.round.Event.TheVariants.{Draw, End};

    /// A round of which nothing is drawn yet.
    pub fn new(alloc: Global, jobs: u32, workers: u32) -> Result<Core, Memory>
        ensures jobs { IfOk result (λ core. core_jobs core ≡ jobs) }
        ensures workers { IfOk result (λ core. core_workers core ≡ workers) }
        ensures round { IfOk result (λ core. core_round core ≡ start) }
    {
        let held = nones(alloc, workers)?;
        let answers = nones(alloc, jobs)?;
        Ok(Core {
            jobs,
            next: 0,
            held,
            answers,
        })
    }

    /// Takes an event, and answers the number that its worker draws or ends; a draw answers `None` where no number is
    /// left.
    pub fn step(&mut self, event: Event) -> Option<u32>
        requires { IsLawful (core_workers self.old) (core_round self.old) event }
        ensures jobs { core_jobs self.new ≡ core_jobs self.old }
        ensures workers { core_workers self.new ≡ core_workers self.old }
        ensures round { core_round self.new ≡ after (core_jobs self.old) (core_round self.old) event }
        ensures number { result ≡ number_of (core_jobs self.old) (core_round self.old) event }
    {
        match event {
            Event::Draw(worker) => self.draw(worker),
            Event::End(worker, probed) => self.end(worker, probed),
        }
    }

    /// The answer of a number, where it has one.
    pub fn answer(&self, number: u32) -> Option<&Probed>
        ensures { option_copied result ≡ answer_of (core_round self.now) number }
    {
        match self.answers.get(number as usize) {
            Some(Some((_, probed))) => Some(probed),
            _ => None,
        }
    }

    fn draw(&mut self, worker: u32) -> Option<u32>
        requires { IsLawful (core_workers self.old) (core_round self.old) (Draw worker) }
        ensures jobs { core_jobs self.new ≡ core_jobs self.old }
        ensures workers { core_workers self.new ≡ core_workers self.old }
        ensures round { core_round self.new ≡ after (core_jobs self.old) (core_round self.old) (Draw worker) }
        ensures number { result ≡ number_of (core_jobs self.old) (core_round self.old) (Draw worker) }
    {
        if self.next >= self.jobs {
            return None;
        }
        let number = self.next;
        self.hold(worker, number);
        Some(number)
    }

    fn hold(&mut self, worker: u32, number: u32)
        requires worker { worker < length self.old.held.items }
        requires next { number ≡ self.old.next }
        requires job { number < self.old.jobs }
        ensures jobs { self.new.jobs ≡ self.old.jobs }
        ensures next { self.new.next ≡ self.old.next + 1 }
        ensures held { self.new.held.items ≡ slice_set self.old.held.items worker (Some number) }
        ensures answers { self.new.answers.items ≡ self.old.answers.items }
    {
        self.held[worker as usize] = Some(number);
        self.next = number + 1;
    }

    fn end(&mut self, worker: u32, probed: Probed) -> Option<u32>
        requires { IsLawful (core_workers self.old) (core_round self.old) (End worker probed) }
        ensures jobs { core_jobs self.new ≡ core_jobs self.old }
        ensures workers { core_workers self.new ≡ core_workers self.old }
        ensures round { core_round self.new ≡ after (core_jobs self.old) (core_round self.old) (End worker probed) }
        ensures number { result ≡ number_of (core_jobs self.old) (core_round self.old) (End worker probed) }
    {
        let number = self.held[worker as usize]?;
        self.put(worker, number, probed);
        Some(number)
    }

    fn put(&mut self, worker: u32, number: u32, probed: Probed)
        requires worker { worker < length self.old.held.items }
        requires job { number < self.old.jobs }
        ensures jobs { self.new.jobs ≡ self.old.jobs }
        ensures next { self.new.next ≡ self.old.next }
        ensures held { self.new.held.items ≡ slice_set self.old.held.items worker None }
        ensures answers { self.new.answers.items ≡ slice_set self.old.answers.items number (Some (worker, probed)) }
    {
        self.held[worker as usize] = None;
        self.answers[number as usize] = Some((worker, probed));
    }
}

fn nones<T: Drop>(alloc: Global, count: u32) -> Result<Vec<Option<T>>, AllocError>
    ensures { IfOk result (λ list. list.items ≡ replicate count None) }
{
    let mut list = Vec::with_capacity(alloc, count as usize)?;
    'places: for _ in 0..count {
        list.push_reserved(None);
    }
    Ok(list)
}

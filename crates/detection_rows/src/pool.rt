// Calls of ticket_pool: jobs `0`, `1` and so on, where the child of job n ends with code n.
ghost use Rattle.std.specs.Prelude.{◌≡◌, ◌+◌, ◌<◌, ◌≤◌, length};
ghost use Rattle.ticket_pool.specs.Passes.{IsPassOf, spawners_of, view_of};

use crate::given::{Given, count_given};
use crate::meeting::{Meeting, new_count};
use cnb_world::{Bytes, DetectJob, Env, List, Probed, Reply, Text};
use row_files::{Answer, Row};
use std::alloc::Global;
use std::sync::Arc;
use std::sync::atomic::AtomicU64;
use std::thread::Threads;
use ticket_pool::{Core, Event, Pass, PoolFault, Tickets, each_job_has_one_answer, run_all};

const VERSION: &str = "1.0.0";

fn text_of(answer: &mut Answer, number: u32) -> Text {
    let mut text = Answer::new(answer.alloc);
    text.show(&number);
    Text::from_string(answer.taken(text))
}

fn job(answer: &mut Answer, number: u32) -> Option<DetectJob> {
    Some(DetectJob {
        program: answer.path("/buildpacks/bin/detect")?,
        platform: answer.path("/platform")?,
        plan: answer.path("/work/plan.toml")?,
        dir: answer.path("/app")?,
        id: text_of(answer, number),
        version: answer.text(VERSION),
        env: Env::new(answer.alloc),
    })
}

fn jobs(answer: &mut Answer, count: u32) -> List<DetectJob> {
    let mut jobs = List::new(answer.alloc);
    for number in 0..count {
        if let Some(job) = job(answer, number) {
            answer.done(jobs.push(job));
        }
    }
    jobs
}

fn ended(alloc: Global, code: i32) -> Probed {
    Probed {
        code: Some(code),
        plan: Bytes::from_vec(Vec::new(alloc)),
    }
}

fn replies(answer: &mut Answer, count: u32) -> List<Reply> {
    let mut replies = List::new(answer.alloc);
    for number in 0..count {
        let reply = Reply {
            id: text_of(answer, number),
            version: answer.text(VERSION),
            probed: ended(answer.alloc, i32::try_from(number).unwrap_or(-1)),
        };
        answer.done(replies.push(reply));
    }
    replies
}

// As many spawners as the row says. Those of the numbers `faulty` fail at their first child.
fn spawners<'a>(answer: &mut Answer, given: &Given<'a>, jobs: u32) -> Vec<Meeting<'a>> {
    let mut spawners = List::new(answer.alloc);
    let faulty = answer.numbers(given.row.text_or_empty("faulty"));
    let count = count_given(answer, given.row, "spawners");
    if let Some(begun) = new_count(answer) {
        for number in 0..count {
            let fails = faulty.as_slice().contains(&u64::from(number));
            push_spawner(answer, given, &begun, jobs, fails, &mut spawners);
        }
    }
    spawners.into_vec()
}

fn push_spawner<'a>(
    answer: &mut Answer,
    given: &Given<'a>,
    begun: &Arc<AtomicU64, Global>,
    jobs: u32,
    fails: bool,
    spawners: &mut List<Meeting<'a>>,
) {
    let failing = answer.numbers(if fails { "0" } else { "" });
    let replies = replies(answer, jobs);
    if let Some(spawner) = Meeting::new(answer, given, begun, 0, replies, failing) {
        answer.done(spawners.push(spawner));
    }
}

/// What comes of jobs by some workers: the codes, or why not every job has one; the round's word; and how many children
/// the spawners ran that may be used, and the others.
pub(crate) fn run_jobs<R: Threads + Sync>(rt: &R, answer: &mut Answer, given: &Given) {
    let count = count_given(answer, given.row, "jobs");
    let workers = count_given(answer, given.row, "workers") as usize;
    let jobs = jobs(answer, count);
    let mut spawners = spawners(answer, given, count);
    put_fit_round(rt, answer, workers, jobs.as_slice(), &mut spawners);
}

fn put_fit_round<R: Threads + Sync>(
    rt: &R,
    answer: &mut Answer,
    workers: usize,
    jobs: &[DetectJob],
    spawners: &mut Vec<Meeting<'_>>,
) {
    if workers == 0 || spawners.is_empty() || spawners.len() > 64 || jobs.len() > 64 {
        answer.wrong("none or too many of", "spawners");
    } else {
        put_round(rt, answer, workers, jobs, spawners);
    }
}

fn put_round<R: Threads + Sync>(
    rt: &R,
    answer: &mut Answer,
    workers: usize,
    jobs: &[DetectJob],
    spawners: &mut Vec<Meeting<'_>>,
)
    requires workers { 0 < workers }
    requires spawners { 0 < length spawners.old.items }
    requires few_spawners { length spawners.old.items ≤ 64 }
    requires few_jobs { length jobs.now ≤ 64 }
{
    let used = workers.min(spawners.len());
    let Ok((round, mut pass)) = Tickets::new(answer.alloc, jobs.len() as u32, used as u32) else {
        answer.run_out();
        return;
    };
    let end = run_all(rt, answer.alloc, spawners, workers, jobs, &round, &mut pass);
    put_codes(answer, &end);
    answer.put(", word ");
    answer.show(&round.close(pass));
    answer.put(", ran ");
    answer.show(&count_runs(spawners, 0, used));
    answer.put(" and ");
    answer.show(&count_runs(spawners, used, 64));
}

fn put_codes(answer: &mut Answer, end: &Result<Vec<Probed>, PoolFault>) {
    match end {
        Ok(answers) => {
            answer.put("codes");
            for probed in answers {
                answer.put(" ");
                answer.show(&probed.code.unwrap_or(-1));
            }
        }
        Err(fault) => answer.debug(fault),
    }
}

// How many children some spawners ran, from a place to before another.
fn count_runs(spawners: &[Meeting<'_>], from: usize, to: usize) -> usize {
    let mut count = 0usize;
    for (place, spawner) in spawners.iter().enumerate() {
        if from <= place && place < to {
            count = count.saturating_add(spawner.children.runs().len());
        }
    }
    count
}

/// A round of two jobs by two workers who end in the other order than they drew, as numbers of jobs and as answers.
pub(crate) fn round_of_two(answer: &mut Answer) {
    let Ok(mut core) = Core::new(answer.alloc, 2, 2) else {
        answer.run_out();
        return;
    };
    let first = core.step(Event::Draw(1));
    let second = core.step(Event::Draw(0));
    let one = core.step(Event::End(0, ended(answer.alloc, 3)));
    let other = core.step(Event::End(1, ended(answer.alloc, 4)));
    let late = core.step(Event::Draw(0));
    put_number(answer, "drew ", first);
    put_number(answer, " ", second);
    put_number(answer, ", ended ", one);
    put_number(answer, " ", other);
    put_number(answer, ", drew ", late);
    put_answers(answer, &core);
}

fn put_number(answer: &mut Answer, front: &str, number: Option<u32>) {
    answer.put(front);
    answer.debug(&number);
}

fn put_answers(answer: &mut Answer, core: &Core) {
    for number in 0..3u32 {
        answer.put("\n");
        answer.show(&number);
        answer.put(" has code ");
        answer.debug(&code_of(core, number));
    }
}

fn code_of(core: &Core, number: u32) -> Option<i32> {
    match core.answer(number) {
        Some(probed) => probed.code,
        None => None,
    }
}

/// The numbers that two passes of a round draw in turn, once more where both draw a job's number, and the word then.
pub(crate) fn draw_tickets(answer: &mut Answer, row: &Row) {
    let count = count_given(answer, row, "jobs");
    let Ok((tickets, mut pass)) = Tickets::new(answer.alloc, count, 2) else {
        answer.run_out();
        return;
    };
    let mut other = tickets.split(&mut pass, 1);
    let drawn = (tickets.draw(&mut pass), tickets.draw(&mut other));
    answer.debug(&drawn);
    let (Some(_), Some(_)) = drawn else {
        put_word(answer, tickets, pass, other);
        return;
    };
    let late = (tickets.draw(&mut pass), tickets.draw(&mut other));
    answer.put(", ");
    answer.debug(&late);
    put_word(answer, tickets, pass, other);
}

fn put_word(answer: &mut Answer, tickets: Tickets, pass: Pass, other: Pass)
    requires left { IsPassOf tickets pass }
    requires right { IsPassOf tickets other }
    requires all { (view_of pass).spawners + (view_of other).spawners ≡ spawners_of tickets }
{
    let mut pass = pass;
    tickets.join(&mut pass, other);
    answer.put(", word ");
    answer.show(&tickets.close(pass));
}

/// Each job has one answer, whatever the round: the call is a proof and does nothing.
pub(crate) fn one_answer(answer: &mut Answer) {
    each_job_has_one_answer();
    answer.put("each job has one answer");
}

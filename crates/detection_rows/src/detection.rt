// Calls of detect_core.
ghost use Rattle.std.specs.Prelude.{IfSome, IsOk, IsTrue};
ghost use Rattle.order_expand.specs.Check.{checked};
ghost use Rattle.detect_core.specs.Search.{is_short};

use crate::buildpacks::{catalog, order, put_key, target};
use crate::environments::platform_env;
use crate::given::{Given, expanded, number_or};
use crate::meeting::{Meeting, new_count};
use crate::plans::put_plan;
use bp_docs::{Order, PlanOption};
use cnb_world::{DetectJob, Env, List, Memory, Probed, Reply};
use detect_core::{Chosen, DetectEnd, DetectFrame, Verdict, detect};
use order_expand::{Catalog, check};
use row_files::{Answer, Row};
use std::alloc::Global;
use std::sync::Arc;
use std::sync::atomic::AtomicU64;
use std::thread::Threads;

/// Spawners take less than so much time for a child.
const MOST_PAUSE: u64 = 4096;

// The exit code that a word says, `none` where a child has none.
fn exit_code(answer: &mut Answer, word: &str) -> Option<i32> {
    match word.parse() {
        Ok(code) => Some(code),
        Err(_) if word == "none" => None,
        Err(_) => {
            answer.wrong("no exit code:", word);
            None
        }
    }
}

fn probed(answer: &mut Answer, code: &str, plan: &str) -> Probed {
    Probed {
        code: exit_code(answer, code),
        plan: answer.bytes(plan.as_bytes()),
    }
}

/// What a child's end says.
pub(crate) fn judge(answer: &mut Answer, row: &Row) {
    let plan = expanded(answer, row, row.text_or_empty("plan"));
    let code = answer.given(row, "code");
    let probed = probed(answer, code, plan.as_str());
    put_verdict(answer, &detect_core::answer(answer.alloc, &probed));
}

fn put_verdict(answer: &mut Answer, verdict: &Result<Verdict, Memory>) {
    match verdict {
        Ok(Verdict::Pass(options)) => put_options(answer, options.as_slice()),
        Ok(Verdict::Fail) => answer.put("fails"),
        Ok(Verdict::Error) => answer.put("errs"),
        Err(Memory) => answer.run_out(),
    }
}

fn put_options(answer: &mut Answer, options: &[PlanOption]) {
    answer.put("passes\n");
    for option in options {
        answer.put("provides");
        for name in option.provides.as_slice() {
            answer.put_all(&[" ", name.as_str()]);
        }
        answer.put(", requires");
        for need in option.needs.as_slice() {
            answer.put_all(&[" ", need.name.as_str()]);
        }
        answer.put("\n");
    }
}

// What children say: parts that begin with `> ID VERSION CODE`, each with a Build Plan behind that line.
fn replies(answer: &mut Answer, row: &Row) -> List<Reply> {
    let mut replies = List::new(answer.alloc);
    for part in answer.given(row, "replies").split("> ").skip(1) {
        push_reply(answer, &mut replies, part);
    }
    replies
}

fn push_reply(answer: &mut Answer, replies: &mut List<Reply>, part: &str) {
    let (head, plan) = part.split_once('\n').unwrap_or((part, ""));
    let Some((id, end)) = head.trim().split_once(' ') else {
        answer.wrong("no version:", head);
        return;
    };
    let Some((version, code)) = end.split_once(' ') else {
        answer.wrong("no exit code:", head);
        return;
    };
    let reply = Reply {
        id: answer.text(id),
        version: answer.text(version),
        probed: probed(answer, code, plan),
    };
    answer.done(replies.push(reply));
}

fn frame(answer: &mut Answer, row: &Row) -> Option<DetectFrame>
    ensures { IfSome result (λ frame. IsTrue (is_short frame)) }
{
    let files = platform_env(answer, row);
    let target = target(answer, row);
    Some(DetectFrame {
        buildpacks: answer.path("/buildpacks")?,
        app: answer.path("/app")?,
        platform: answer.path("/platform")?,
        work: answer.path("/work")?,
        env: Env::new(answer.alloc),
        files,
        target,
    })
}

/// So many spawners of the row's children, each of which takes another time for a child.
pub(crate) fn spawners<'a>(answer: &mut Answer, given: &Given<'a>, count: u64) -> Vec<Meeting<'a>> {
    let mut spawners = List::new(answer.alloc);
    if let Some(begun) = new_count(answer) {
        let pause = number_or(answer, given.row, "pause", 0);
        for place in 0..count {
            let pause = pause.wrapping_mul(place) % MOST_PAUSE;
            push_spawner(answer, given, &begun, pause, &mut spawners);
        }
    }
    spawners.into_vec()
}

fn push_spawner<'a>(
    answer: &mut Answer,
    given: &Given<'a>,
    begun: &Arc<AtomicU64, Global>,
    pause: u64,
    spawners: &mut List<Meeting<'a>>,
) {
    let failing = answer.numbers(given.row.text_or_empty("failing"));
    let replies = replies(answer, given.row);
    if let Some(spawner) = Meeting::new(answer, given, begun, pause, replies, failing) {
        answer.done(spawners.push(spawner));
    }
}

/// What a detection chooses, or why nothing, and which children ran, by as many spawners as the row says, or one.
pub(crate) fn choose<R: Threads + Sync>(rt: &R, answer: &mut Answer, given: &Given) {
    let catalog = catalog(answer, given.row);
    if let Some(order) = order(answer, given.row) {
        put_checked(rt, answer, given, &order, &catalog);
    }
}

fn put_checked<R: Threads + Sync>(
    rt: &R,
    answer: &mut Answer,
    given: &Given,
    order: &Order,
    catalog: &Catalog,
) {
    match check(answer.alloc, order, catalog) {
        Ok(_) => put_detected(rt, answer, given, order, catalog),
        Err(fault) => answer.show(&fault),
    }
}

// The same for an order that was checked.
fn put_detected<R: Threads + Sync>(
    rt: &R,
    answer: &mut Answer,
    given: &Given,
    order: &Order,
    catalog: &Catalog,
)
    requires { IsOk (checked catalog.now order.now) }
{
    let count = number_or(answer, given.row, "spawners", 1);
    let mut spawners = spawners(answer, given, count);
    if let Some(end) = end_by(rt, answer, given.row, order, catalog, &mut spawners) {
        put_end(answer, &end);
        let are_several = spawners.len() > 1;
        put_runs(answer, given.row, spawners.as_slice(), are_several);
    }
}

/// How a detection by these spawners ends.
pub(crate) fn end_by<R: Threads + Sync>(
    rt: &R,
    answer: &mut Answer,
    row: &Row,
    order: &Order,
    catalog: &Catalog,
    spawners: &mut Vec<Meeting<'_>>,
) -> Option<Result<Chosen, DetectEnd>>
    requires { IsOk (checked catalog.now order.now) }
{
    let workers = spawners.len();
    if workers == 0 {
        answer.wrong("none of", "spawners");
        return None;
    }
    let frame = frame(answer, row)?;
    Some(detect(rt, answer.alloc, order, catalog, spawners, workers, &frame))
}

/// Adds how a detection ended.
pub(crate) fn put_end(answer: &mut Answer, end: &Result<Chosen, DetectEnd>) {
    match end {
        Ok(chosen) => put_choice(answer, chosen),
        Err(end) => answer.put(words_of(end)),
    }
}

fn words_of(end: &DetectEnd) -> &'static str {
    match end {
        DetectEnd::NoGroup { erred: false } => "no group passes",
        DetectEnd::NoGroup { erred: true } => "no group passes, a child erred",
        DetectEnd::ManyTrials => "too many trials",
        DetectEnd::Child => "a child gave no answer",
        DetectEnd::Memory => "out of memory",
    }
}

fn put_number(answer: &mut Answer, front: &str, number: u32) {
    answer.put(front);
    answer.show(&number);
}

fn put_choice(answer: &mut Answer, chosen: &Chosen) {
    put_number(answer, "group ", chosen.place);
    put_number(answer, ", trial ", chosen.trial);
    put_number(answer, " of ", chosen.trials);
    for row in chosen.group.as_slice() {
        answer.put("\n");
        put_key(answer, &row.key);
        answer.put_all(&[" api ", row.api.as_str()]);
    }
    answer.put("\nplan");
    put_plan(answer, chosen.plan.as_slice());
    answer.put("\nasked");
    for key in chosen.asked.as_slice() {
        answer.put(" ");
        put_key(answer, key);
    }
}

/// Adds the children that ran, each with those of the variables under `shown` that it had: ascending, or in order.
pub(crate) fn put_runs(
    answer: &mut Answer,
    row: &Row,
    spawners: &[Meeting<'_>],
    is_ascending: bool,
) {
    let mut names = runs(answer, row, spawners);
    if is_ascending && names.sort().is_err() {
        answer.run_out();
    }
    answer.put("\nran");
    for name in &names {
        answer.put_all(&[" ", name.as_str()]);
    }
}

fn runs(answer: &mut Answer, row: &Row, spawners: &[Meeting<'_>]) -> Vec<String> {
    let mut names = List::new(answer.alloc);
    for spawner in spawners {
        for run in spawner.children.runs() {
            let name = run_text(answer, row, &run.job);
            answer.done(names.push(name));
        }
    }
    names.into_vec()
}

fn run_text(answer: &mut Answer, row: &Row, job: &DetectJob) -> String {
    let mut text = Answer::new(answer.alloc);
    put_run(&mut text, row, job);
    answer.taken(text)
}

fn put_run(answer: &mut Answer, row: &Row, job: &DetectJob) {
    answer.put_all(&[job.id.as_str(), "@", job.version.as_str()]);
    for name in row.text_or_empty("shown").split_whitespace() {
        if let Some(value) = job.env.get(name) {
            answer.put_all(&[" ", name, "=", value.as_str()]);
        }
    }
}

// One run of the top call in memory.
use cnb_lifecycle::lifecycle;
use cnb_world::{List, MemSpawner, Shelf, World};
use scenarios::{Answer, Came, Chain, Holding, Outage, PieceSink, push_holdings};
use std::thread::Threads;

/// Runs the row, with one more call failing.
pub(crate) fn run<R: Threads + Sync>(
    rt: &R,
    answer: &mut Answer,
    chain: &Chain,
    outage: Outage,
) -> Option<Came> {
    let mut came = chain.not_yet_run(answer, outage)?;
    let Came {
        out,
        spawners,
        world,
        caches,
        ..
    } = &mut came;
    let status = status_over(rt, answer, chain, outage, world, spawners, out, caches);
    came.end(answer, status);
    Some(came)
}

/// The exit status of the row's words over a world. Adds what each cache holds then.
pub(crate) fn status_over<W: World, R: Threads + Sync>(
    rt: &R,
    answer: &mut Answer,
    chain: &Chain,
    outage: Outage,
    world: &mut W,
    spawners: &mut Vec<MemSpawner>,
    out: &mut PieceSink,
    caches: &mut List<Holding>,
) -> u8 {
    let mut shelves: Vec<Box<dyn Shelf>> = Vec::new(answer.alloc);
    for shelf in chain.mem_shelves(answer, outage) {
        match Box::new(answer.alloc, shelf) {
            Ok(shelf) => push_shelf(answer, &mut shelves, shelf),
            Err(_) => answer.run_out(),
        }
    }
    let status = call(rt, answer, chain, world, spawners, &mut shelves, out);
    push_holdings(answer, caches, chain.trees, &mut shelves);
    status
}

fn push_shelf(answer: &mut Answer, shelves: &mut Vec<Box<dyn Shelf>>, shelf: Box<dyn Shelf>) {
    if shelves.push(shelf).is_err() {
        answer.run_out();
    }
}

fn call<W: World, R: Threads + Sync>(
    rt: &R,
    answer: &mut Answer,
    chain: &Chain,
    world: &mut W,
    spawners: &mut Vec<MemSpawner>,
    shelves: &mut Vec<Box<dyn Shelf>>,
    out: &mut PieceSink,
) -> u8 {
    let (words, env) = (chain.words(answer), chain.environment(answer));
    if spawners.is_empty() || shelves.len() > 255 {
        answer.wrong("no run has", "such numbers");
        return 0;
    }
    let alloc = answer.alloc;
    lifecycle(rt, alloc, &words, &env, world, spawners, shelves, out).code()
}

// Room for answers, reserved before any worker starts.
ghost use Rattle.std.specs.Prelude.{◌≡◌, ◌≤◌, All, IfOk, length, vec_capacity};
ghost use Rattle.ticket_pool.specs.Work.{HasRoom};

use crate::answer::Answer;
use cnb_world::{Bytes, Memory, Probed};
use std::alloc::Global;

/// A list for each worker, with room for all jobs.
pub fn reserved_lists(
    alloc: Global,
    workers: usize,
    jobs: usize,
) -> Result<Vec<Vec<Answer>>, Memory>
    ensures count { IfOk result (λ lists. length lists.items ≡ workers) }
    ensures room { IfOk result (λ lists. All (λ list. HasRoom jobs list.items (vec_capacity list)) lists.items) }
{
    let mut lists = Vec::with_capacity(alloc, workers)?;
    'lists: for _ in 0..workers {
        let list = Vec::with_capacity(alloc, jobs)?;
        lists.push_reserved(list);
    }
    Ok(lists)
}

/// A place for the answer of each job.
pub fn blank_answers(alloc: Global, jobs: usize) -> Result<Vec<Probed>, Memory>
    ensures { IfOk result (λ answers. length answers.items ≡ jobs) }
{
    let mut answers = Vec::with_capacity(alloc, jobs)?;
    'answers: for _ in 0..jobs {
        answers.push_reserved(Probed {
            code: None,
            plan: Bytes::from_vec(Vec::new(alloc)),
        });
    }
    Ok(answers)
}

// One worker.
ghost use Rattle.std.specs.Prelude.{◌≡◌, ◌≤◌, [], ◌∷◌, length, vec_capacity};
ghost use Rattle.ticket_pool.specs.Passes.{IsPassOf, jobs_of, spawners_of, view_of};
ghost use Rattle.ticket_pool.specs.TicketRule.{view};
ghost use Rattle.ticket_pool.specs.Work.{HasRoom, Worked};

use crate::answer::Answer;
use crate::fault::PoolFault;
use crate::tickets::{Pass, Tickets};
use cnb_world::{DetectJob, Spawner};

/// Draws numbers and runs their jobs, until no job is left or the spawner fails.
pub fn work<S: Spawner>(
    jobs: &[DetectJob],
    round: &Tickets,
    pass: &mut Pass,
    list: &mut Vec<Answer>,
    spawner: &mut S,
) -> Result<(), PoolFault>
    requires round { IsPassOf round.now pass.old }
    requires jobs { jobs_of round.now ≡ length jobs.now }
    requires pass { view_of pass.old ≡ view [] 1 0 }
    requires list { HasRoom (length jobs.now) list.old.items (vec_capacity list.old) }
    ensures round { IsPassOf round.now pass.new }
    ensures worked { Worked S.runs S.says S.faults jobs.now (spawners_of round.now)
        (spawner.old ∷ []) (spawner.new ∷ []) (list.new.items ∷ []) (view_of pass.new) result }
{
    'draws: while let Some(number) = round.draw(pass) {
        let probed = spawner.detect(&jobs[number as usize])?;
        list.push_reserved(Answer { number, probed });
    }
    Ok(())
}

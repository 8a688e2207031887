// Answers brought into the order of the jobs.
ghost use Rattle.std.specs.Prelude.{◌≡◌, length, map};
ghost use Rattle.ticket_pool.specs.Deal.{NoneTwice};
ghost use Rattle.ticket_pool.specs.Placing.{HasAllAnswers, HasAnswers, SameElse};
ghost use Rattle.ticket_pool.specs.Work.{AllDealt, IsDealt, numbers};

use crate::answer::Answer;
use cnb_world::Probed;

/// Writes each answer of the workers' lists at its number.
pub fn place_all(answers: &mut [Probed], mut lists: Vec<Vec<Answer>>)
    requires dealt { AllDealt (length answers.old) (map (λ list. list.items) lists.items) }
    requires once { NoneTwice (map numbers (map (λ list. list.items) lists.items)) }
    ensures { HasAllAnswers answers.new (map (λ list. list.items) lists.items) }
{
    'lists: while let Some(list) = lists.pop() {
        place(answers, list);
    }
}

fn place(answers: &mut [Probed], mut list: Vec<Answer>)
    requires { IsDealt (length answers.old) list.items }
    ensures answers { HasAnswers answers.new list.items }
    ensures others { SameElse answers.new answers.old list.items }
    ensures count { length answers.new ≡ length answers.old }
{
    'answers: while let Some(answer) = list.pop() {
        answers[answer.number as usize] = answer.probed;
    }
}

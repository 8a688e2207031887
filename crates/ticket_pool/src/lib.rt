//! Jobs run by workers side by side, each of which draws the numbers of its jobs from one word.
#![tactic(auto)]

mod answer;
mod fault;
mod halves;
mod placing;
mod pool;
mod room;
mod round;
mod rule;
mod tickets;
mod worker;

pub use fault::PoolFault;
pub use pool::run_all;
pub use round::{Core, Event, each_job_has_one_answer};
pub use tickets::{Pass, Tickets};

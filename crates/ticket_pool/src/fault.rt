// Why jobs have no answers.
use cnb_world::{DetectFault, Memory};

/// Why not every job has an answer: a child gave none, which its spawner counted, or memory ran out.
#[derive(Clone, Copy, Debug, PartialEq, Eq)]
pub enum PoolFault {
    Child,
    Memory,
}

impl From<DetectFault> for PoolFault {
    ghost use Rattle.std.specs.Prelude.{◌≡◌};
    ghost use Rattle.ticket_pool.specs.Counts.{pool_fault};

    ghost from_gives = { λ fault pool. pool ≡ pool_fault fault };

    fn from(fault: DetectFault) -> Self {
        match fault {
            DetectFault::Failed => PoolFault::Child,
            DetectFault::Memory => PoolFault::Memory,
        }
    }
}

impl From<Memory> for PoolFault {
    ghost use Rattle.std.specs.Prelude.{◌≡◌};
    ghost use Rattle.ticket_pool.specs.declared.fault.PoolFault.TheVariants.{Memory};

    ghost from_gives = { λ _ pool. pool ≡ Memory };

    fn from(_: Memory) -> Self {
        PoolFault::Memory
    }
}

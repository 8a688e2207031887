// The numbers of the caches.
ghost use Rattle.std.specs.Prelude.{◌≡◌, IfOk};
ghost use Rattle.std.specs.List.{range_with_len};

use cnb_world::{List, Memory};
use std::alloc::Global;

/// The numbers below a count, ascending: those of as many caches.
#[tactic(auto, using(crate::proofs::NumberLemmas::one_more))]
pub(crate) fn numbers(alloc: Global, count: u32) -> Result<List<u32>, Memory>
    ensures { IfOk result (λ numbers. numbers ≡ range_with_len 0 count) }
{
    let mut numbers = List::new(alloc);
    for number in 0..count {
        numbers.push(number)?;
    }
    Ok(numbers)
}

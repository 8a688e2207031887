// The words of `drill`.
ghost use Rattle.std.specs.Prelude.{IfOk, map, string_bytes};
ghost use Rattle.cnb_words.specs.Faults.{AreReadAs};
ghost use Rattle.cnb_words.specs.Drill.{drill_in, KeepsLimits};

use crate::fault::WordsFault;
use crate::values::number_in;

const MOST: u32 = 4_095;

/// What the words of `drill` ask for.
#[derive(Drop)]
pub struct DrillWords {
    pub number: u32,
}

/// What the words behind `drill` ask for: a number from 0 to 4,095, in decimal.
pub(crate) fn drill_in(words: &[String]) -> Result<DrillWords, WordsFault>
    ensures reads { AreReadAs result (drill_in (map string_bytes words.now)) }
    ensures limits { IfOk result KeepsLimits }
{
    match words {
        [word] => {
            let number = number_in(word.as_str(), 0, MOST)?;
            Ok(DrillWords { number })
        }
        _ => Err(WordsFault::Usage),
    }
}

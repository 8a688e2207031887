// Steps on a child's job and its end, whatever their types are: here no exit drops the fields of a job.
ghost use Rattle.std.specs.Prelude.{◌≡◌, IfOk, IsErr, IsOk, Ok, OnErr};

use crate::fault::HostFault;

/// A job with the end of its child, if it ended.
pub fn with_end<J: Drop, E: Drop>(job: J, end: Result<E, HostFault>) -> Result<(J, E), HostFault>
    ensures job { IfOk result (λ both. both.0 ≡ job) }
    ensures end { IfOk result (λ both. end ≡ Ok both.1) }
{
    let end = end?;
    Ok((job, end))
}

/// An end, once its row is kept.
pub fn once_kept<E: Drop>(kept: Result<(), HostFault>, end: E) -> Result<E, HostFault>
    ensures same { IfOk result (λ given. given ≡ end) }
    ensures ok { IfOk result (λ _. IsOk kept) }
    ensures err { OnErr result (IsErr kept) }
{
    kept?;
    Ok(end)
}

ghost use Rattle.std.specs.Prelude.{◌≡◌, MatchResult};

use crate::Status;
use knx_base::Failed;

/// The status of a report that was printed or not.
pub(crate) fn ended(printed: Result<(), Failed>, status: Status) -> Status
    ensures { MatchResult printed (λ _. result ≡ status) (λ _. result ≡ Status.WriteFault) }
{
    match printed {
        Ok(()) => status,
        Err(_) => Status::WriteFault,
    }
}

ghost use Rattle.std.specs.Prelude.{◌≡◌};
ghost use Rattle.std.specs.Option.{option_map};
ghost use Rattle.std.specs.Process.{exit_status};
ghost use Rattle.knxsec_app.specs.Status.{exit_number, fault_text_of};

use crate::Status;
use std::process::ExitCode;

/// The status with which the process ends where its words cannot be had.
const NO_WORDS: u8 = 7;

/// Ends a command: tells standard error why the report is not whole, where it is not, and answers how the process is to
/// end. Without a status its words could not be had.
pub fn conclude<R: Eprint>(ended: Option<Status>, host: &R) -> ExitCode
    ensures number { exit_status result ≡ exit_number ended }
{
    if let Some(text) = fault_text(ended) {
        let _ = eprintln!(host; "knxsec: {text}");
    }
    ExitCode::from(exit_number(ended))
}

fn exit_number(ended: Option<Status>) -> u8
    ensures number { result ≡ exit_number ended }
{
    match ended {
        Some(status) => status.number(),
        None => NO_WORDS,
    }
}

// What standard error is told where the report is not whole.
fn fault_text(ended: Option<Status>) -> Option<&'static str>
    ensures text { option_map (λ text. text.now) result ≡ fault_text_of ended }
{
    match ended {
        None => Some("no words"),
        Some(Status::ReadFault) => Some("read fault"),
        Some(Status::WriteFault) => Some("write fault"),
        Some(Status::NoMemory) => Some("no memory"),
        Some(Status::Done | Status::Alarm | Status::Usage | Status::Refused) => None,
    }
}

ghost use Rattle.std.specs.Prelude.{◌≡◌};
ghost use Rattle.cemi_frames.specs.Frames.{telegram};
ghost use Rattle.judge_rules.specs.Checks.{is_alarm, is_keyed_group};

use crate::Verdict;
use cemi_frames::Frame;
use key_tables::{Channel, Tables};
use knx_base::GroupAddr;

/// Whether a verdict on a frame is one to warn of. A stale frame is none where the link layer repeats it and its number
/// is the mark.
pub fn is_alarm(tables: &Tables, frame: &Frame<'_>, verdict: &Verdict) -> bool
    ensures alarm { result ≡ is_alarm tables.now (telegram frame.now) verdict.now }
{
    match verdict {
        Verdict::BadSecure(_)
        | Verdict::BadCode(_)
        | Verdict::BadPayload { .. }
        | Verdict::Sender
        | Verdict::Level
        | Verdict::Role { .. } => true,
        Verdict::Stale { kept, got } => !(frame.repeated && got == kept),
        Verdict::Plain(_) => is_keyed_group(tables, frame),
        _ => false,
    }
}

fn is_keyed_group(tables: &Tables, frame: &Frame<'_>) -> bool
    ensures { result ≡ is_keyed_group tables.now (telegram frame.now) }
{
    frame.is_group()
        && tables
            .key(Channel::Group(GroupAddr(frame.destination)))
            .is_some()
}

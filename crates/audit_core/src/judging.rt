ghost use Rattle.std.specs.Prelude.{◌≡◌, ℕ, List, IfOk, IsOk, OnOk, OnErr, Ok, Err};
ghost use Rattle.cemi_frames.specs.Frames.{telegram};
ghost use Rattle.key_tables.specs.declared.types.Lane.{Lane};
ghost use Rattle.key_tables.specs.declared.types.Row.{Row};
ghost use Rattle.sync_service.specs.Open.{Asked, asked_in};
ghost use Rattle.audit_core.specs.Audit.{telegram_in, kept_of, opened_of, telegram_line, line_under};
ghost use Rattle.audit_core.specs.Marks.{mark_in};
ghost use Rattle.audit_core.specs.State.{raised, noted};

use crate::past::Past;
use crate::{Addresses, Line};
use cemi_frames::{Frame, NotFrame, read_frame};
use judge_rules::{Entry, Verdict, is_alarm};
use key_tables::Tables;
use knx_base::NoMemory;
use secure_apdu::ApduBuf;

/// The line of a record under what the frames so far left behind, to which it adds its own. Without memory nothing
/// has changed.
pub(crate) fn judge_next(
    tables: &Tables,
    past: &mut Past,
    index: u64,
    octets: &[u8],
    apdu: &mut ApduBuf,
) -> Result<Line, NoMemory>
    ensures line { IfOk result (λ line. line ≡ line_under tables.now index (mark_in past.old.marks)
        (asked_in past.old.asked) (telegram_in octets.now)) }
    ensures kept { IsOk result → (other : Lane) → mark_in past.new.marks other
        ≡ raised (kept_of tables.now (mark_in past.old.marks) (asked_in past.old.asked) (telegram_in octets.now)) other
        (mark_in past.old.marks other) }
    ensures noted { IfOk result (λ line. asked_in past.new.asked ≡ noted line (asked_in past.old.asked)) }
    ensures opened { OnOk result (apdu.new ≡ opened_of tables.now (asked_in past.old.asked) (telegram_in octets.now)) }
    ensures unchanged { OnErr result (past.new ≡ past.old) }
    ensures apdu_stays { OnErr result (apdu.new ≡ apdu.old) }
{
    match read_frame(octets) {
        Ok(frame) => judge_frame(tables, past, index, &frame, apdu),
        Err(fault) => {
            apdu.clear();
            Ok(fault_line(index, fault))
        }
    }
}

// The same of a frame.
fn judge_frame(
    tables: &Tables,
    past: &mut Past,
    index: u64,
    frame: &Frame<'_>,
    apdu: &mut ApduBuf,
) -> Result<Line, NoMemory>
    ensures line { IfOk result (λ line. line ≡ line_under tables.now index (mark_in past.old.marks)
        (asked_in past.old.asked) (Ok (telegram frame.now))) }
    ensures kept { IsOk result → (other : Lane) → mark_in past.new.marks other
        ≡ raised (kept_of tables.now (mark_in past.old.marks) (asked_in past.old.asked) (Ok (telegram frame.now))) other
        (mark_in past.old.marks other) }
    ensures noted { IfOk result (λ line. asked_in past.new.asked ≡ noted line (asked_in past.old.asked)) }
    ensures opened { OnOk result (apdu.new ≡ opened_of tables.now (asked_in past.old.asked) (Ok (telegram frame.now))) }
    ensures unchanged { OnErr result (past.new ≡ past.old) }
    ensures apdu_stays { OnErr result (apdu.new ≡ apdu.old) }
{
    let entry = Entry::enter(tables, frame);
    let mark = past.mark(entry.lane());
    let mut opened = ApduBuf::new();
    let judgement = entry.judge(mark, past.asked(frame), &mut opened);
    past.take(frame, &judgement)?;
    *apdu = opened;
    Ok(telegram_line(tables, index, frame, judgement.verdict))
}

fn telegram_line(tables: &Tables, index: u64, frame: &Frame<'_>, verdict: Verdict) -> Line
    ensures { result ≡ telegram_line tables.now index (telegram frame.now) verdict }
{
    Line {
        index,
        addresses: Some(Addresses {
            source: frame.source,
            group: frame.is_group(),
            destination: frame.destination,
        }),
        repeated: frame.repeated,
        verdict,
        alarm: is_alarm(tables, frame, &verdict),
    }
}

// The line of a record that is no frame.
fn fault_line(index: u64, fault: NotFrame) -> Line
    ensures { (rows : List Row) (marks : Lane → ℕ) (asked : Asked)
        → result ≡ line_under rows index marks asked (Err fault) }
{
    Line {
        index,
        addresses: None,
        repeated: false,
        verdict: Verdict::NotFrame(fault),
        alarm: false,
    }
}

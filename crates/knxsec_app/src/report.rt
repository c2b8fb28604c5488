ghost use Rattle.std.specs.Prelude.{◌≡◌, ◌≤◌};
ghost use Rattle.knx_base.specs.Faults.{HasCause};
ghost use Rattle.knx_base.specs.Sink.{Prints, AppendsPrefix};
ghost use Rattle.audit_core.specs.Text.{line_text_with, total_text};
ghost use Rattle.knxsec_app.specs.Answer.{Answer, Answers, after};
ghost use Rattle.knxsec_app.specs.Auditing.{total_status};
ghost use Rattle.knxsec_app.specs.Ends.{EndsPage, EndsTelling, EndsWriting};
ghost use Rattle.knxsec_app.specs.Page.{HandsOn, Passes};
ghost use Rattle.knxsec_app.specs.Commands.{IsWhole};
ghost use Rattle.knxsec_app.specs.Refusing.{EndsList};

use crate::Status;
use crate::ending::ended;
use crate::page::Page;
use crate::part::{Part, pass};
use crate::refusing::{frames_line, refuse};
use audit_core::{Audit, Line, print_line_with};
use datapoints::ShownValue;
use frame_file::RecordFault;
use knx_base::{Failed, LineBuf, Sink};
use secure_apdu::ApduBuf;

/// The line of a record, with its time where that is known, the APDU that was opened, and what is shown behind it.
#[derive(Drop)]
struct RecordLine<'a> {
    line: &'a Line,
    time: Option<i64>,
    apdu: &'a ApduBuf,
    behind: &'a ShownValue,
}

impl Part for RecordLine<'_> {
    ghost text = { λ r. line_text_with r.line.now r.time r.apdu.now r.behind.now };

    fn print<S: Sink>(&self, out: &mut S) -> Result<(), Failed> {
        print_line_with(self.line, self.time, self.apdu, self.behind.bytes(), out)
    }
}

/// Adds a line to the page, or, where it is full, hands on all that waits and the line.
pub(crate) fn pass_line<S: Sink>(
    line: &Line,
    time: Option<i64>,
    apdu: &ApduBuf,
    behind: &ShownValue,
    page: &mut Page,
    out: &mut S,
) -> Result<(), Failed>
    ensures text { Passes page.old.held page.new.held (S.octets out.old) (S.octets out.new) result
        (line_text_with line.now time apdu.now behind.now) }
    ensures cause { HasCause (S.faults out.old) (S.faults out.new) result }
{
    let part = RecordLine {
        line,
        time,
        apdu,
        behind,
    };
    pass(&part, page, out)
}

/// Hands on what waits, and ends the report with the total.
pub(crate) fn finish<S: Sink>(audit: &Audit, page: &mut Page, out: &mut S) -> Status
    ensures answer { Answers (after page.old.held (record {
      report = total_text audit.now.total;
      status = total_status
          audit.now.total;
    })) result (S.octets out.old) (S.octets out.new) }
    ensures ends { EndsWriting (S.faults out.old) (S.faults out.new) result }
{
    match page.hand_on(out) {
        Ok(()) => ended(audit.print_total(out), total_status(audit)),
        Err(_) => Status::WriteFault,
    }
}

fn total_status(audit: &Audit) -> Status
    ensures { result ≡ total_status audit.now.total }
{
    if audit.alarms() == 0 {
        Status::Done
    } else {
        Status::Alarm
    }
}

/// Hands on what waits, and ends the report with the refusal of the records, or where their reader stopped.
pub(crate) fn finish_frames<S: Sink>(fault: &RecordFault, page: &mut Page, out: &mut S) -> Status
    ensures answer { EndsList fault.now page.old.held result (S.octets out.old) (S.octets out.new) }
    ensures read_fault { result ≡ Status.ReadFault → fault.now ≡ RecordFault.ReadFault }
    ensures only_read_fault { fault.now ≡ RecordFault.ReadFault → result ≡ Status.ReadFault }
    ensures handed { result ≡ Status.ReadFault → HandsOn page.old.held (S.octets out.old) (S.octets out.new)
        (S.faults out.old) (S.faults out.new) }
    ensures memory { result ≡ Status.NoMemory → fault.now ≡ RecordFault.NoMemory }
    ensures ends { EndsPage (S.faults out.old) (S.faults out.new) result }
    ensures not_whole { IsWhole result → ⊥ }
{
    match fault {
        RecordFault::ReadFault => stop_unread(page, out),
        RecordFault::NoMemory => stop_without_memory(page, out),
        fault => finish_refused(&frames_line(fault), page, out),
    }
}

// Hands on what waits, and ends the report with the refusal of a file.
fn finish_refused<S: Sink>(line: &LineBuf, page: &mut Page, out: &mut S) -> Status
    ensures answer { Answers (after page.old.held (record { report = line.now; status = Status.Refused })) result
        (S.octets out.old) (S.octets out.new) }
    ensures ends { EndsWriting (S.faults out.old) (S.faults out.new) result }
{
    match page.hand_on(out) {
        Ok(()) => refuse(line, out),
        Err(_) => Status::WriteFault,
    }
}

/// Hands on what waits where the files failed, as far as the sink takes it.
#[tactic(auto, using(crate::proofs::Answering::handed_or_rose))]
fn stop_unread<S: Sink>(page: &mut Page, out: &mut S) -> Status
    ensures status { result ≡ Status.ReadFault }
    ensures text { AppendsPrefix (S.octets out.old) (S.octets out.new) page.old.held }
    ensures handed { HandsOn page.old.held (S.octets out.old) (S.octets out.new) (S.faults out.old) (S.faults out.new) }
    ensures later { S.faults out.old ≤ S.faults out.new }
{
    let _ = page.hand_on(out);
    Status::ReadFault
}

/// Hands on what waits where memory is wanting. A sink that does not take it is the fault that is told.
pub(crate) fn stop_without_memory<S: Sink>(page: &mut Page, out: &mut S) -> Status
    ensures answer { Answers (record { report = page.old.held; status = Status.NoMemory }) result (S.octets out.old)
        (S.octets out.new) }
    ensures text { AppendsPrefix (S.octets out.old) (S.octets out.new) page.old.held }
    ensures ends { EndsTelling (S.faults out.old) (S.faults out.new) result }
    ensures not_whole { IsWhole result → ⊥ }
{
    ended(page.hand_on(out), Status::NoMemory)
}

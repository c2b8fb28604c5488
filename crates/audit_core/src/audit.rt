ghost use Rattle.std.specs.Prelude.{◌≡◌, ℕ, ◌+◌, ◌-◌, ◌^◌, ◌<◌, List, [], ◌∷◌, IfOk, OnOk, OnErr};
ghost use Rattle.knx_base.specs.Faults.{HasCause};
ghost use Rattle.knx_base.specs.Sink.{Prints};
ghost use Rattle.sync_service.specs.Open.{asked_in};
ghost use Rattle.audit_core.specs.Audit.{telegram_in, line_of, apdu_of, opened_of};
ghost use Rattle.audit_core.specs.State.{AuditState, Knows, Steps};
ghost use Rattle.audit_core.specs.Text.{total_text};

use crate::Line;
use crate::judging::judge_next;
use crate::past::Past;
use crate::tally::Tally;
use key_tables::Tables;
use knx_base::{Failed, NoMemory, Sink, print_text};
use secure_apdu::ApduBuf;
use std::alloc::Global;
use std::marker::Model;

/// An audit under way: the rows that frames are judged under, the marks and the challenges that the frames so far
/// left, and the
/// total of their lines.
#[derive(Drop)]
pub struct Audit {
    tables: Tables,
    past: Past,
    tally: Tally,
}

impl Model for Audit {
    ghost use Rattle.audit_core.specs.State.{AuditState};

    ghost Value = { AuditState };

    ghost view = { λ a. record { rows = a.tables; marks = a.past.marks; asked = a.past.asked; total = a.tally } };
}

impl Audit {
    /// An audit of no frames, under these tables.
    pub fn new(alloc: Global, tables: Tables) -> Audit
        ensures rows { result.rows ≡ tables }
        ensures none { Knows result [] }
    {
        Audit {
            tables,
            past: Past::new(alloc),
            tally: Tally::new(),
        }
    }

    /// The line of the next record. Where its code is right `apdu` has the APDU that was opened, else no octets.
    /// Where there is no
    /// memory nothing has changed.
    pub fn frame(&mut self, octets: &[u8], apdu: &mut ApduBuf) -> Result<Line, NoMemory>
        requires few { self.old.total.records < 2 ^ 64 - 1 }
        ensures line { (past : List (List ℕ)) → Knows self.old past
            → IfOk result (λ line. line ≡ line_of self.old.rows past octets.now) }
        ensures knows { (past : List (List ℕ)) → Knows self.old past
            → OnOk result (Knows self.new (octets.now ∷ past)) }
        ensures opened { (past : List (List ℕ)) → Knows self.old past
            → OnOk result (apdu.new ≡ apdu_of self.old.rows past octets.now) }
        ensures rows { self.new.rows ≡ self.old.rows }
        ensures counted { OnOk result (self.new.total.records ≡ self.old.total.records + 1) }
        ensures unchanged { OnErr result (self.new ≡ self.old) }
        ensures apdu_stays { OnErr result (apdu.new ≡ apdu.old) }
    {
        self.step(octets, apdu)
    }

    fn step(&mut self, octets: &[u8], apdu: &mut ApduBuf) -> Result<Line, NoMemory>
        requires few { self.old.total.records < 2 ^ 64 - 1 }
        ensures steps { IfOk result (λ line. Steps self.old self.new octets.now line) }
        ensures opened { OnOk result (apdu.new ≡ opened_of self.old.rows (asked_in self.old.asked)
            (telegram_in octets.now)) }
        ensures unchanged { OnErr result (self.new ≡ self.old) }
        ensures apdu_stays { OnErr result (apdu.new ≡ apdu.old) }
    {
        let index = self.tally.records() + 1;
        let line = judge_next(&self.tables, &mut self.past, index, octets, apdu)?;
        self.tally.count(&line);
        Ok(line)
    }

    /// Writes the total line.
    pub fn print_total<S: Sink>(&self, out: &mut S) -> Result<(), Failed>
        ensures text { Prints (S.octets out.old) (S.octets out.new) result (total_text self.now.total) }
        ensures cause { HasCause (S.faults out.old) (S.faults out.new) result }
    {
        print_text(self.tally.text().bytes(), out)
    }

    /// How many lines so far are alarms.
    pub fn alarms(&self) -> u64
        ensures alarms { result ≡ self.now.total.alarms }
    {
        self.tally.alarms()
    }
}

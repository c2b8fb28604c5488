ghost use Rattle.std.specs.Prelude.{◌≡◌, ◌-◌, ◌^◌, ◌<◌, if◌then◌else◌};
ghost use Rattle.audit_core.specs.Audit.{accepts, synchronises};
ghost use Rattle.audit_core.specs.State.{one_if, with_line};
ghost use Rattle.audit_core.specs.Text.{total_text};

use crate::Line;
use judge_rules::Verdict;
use knx_base::LineBuf;
use std::marker::Model;

// The counts of an audit's total line.
#[derive(Drop)]
pub(crate) struct Tally {
    records: u64,
    accepted: u64,
    synchronised: u64,
    alarms: u64,
}

impl Model for Tally {
    ghost use Rattle.std.specs.Prelude.{◌≤◌};
    ghost use Rattle.audit_core.specs.Audit.{Total};

    ghost Value = { Total };

    ghost view = { λ t. record {
      records = t.records;
      accepted = t.accepted;
      synchronised = t.synchronised;
      alarms = t.alarms;
    } };

    ghost invariant = { λ t. (t.accepted ≤ t.records) × (t.synchronised ≤ t.records) × (t.alarms ≤ t.records) };
}

impl Tally {
    pub(crate) fn new() -> Tally
        ensures { result ≡ record { records = 0; accepted = 0; synchronised = 0; alarms = 0 } }
    {
        Tally {
            records: 0,
            accepted: 0,
            synchronised: 0,
            alarms: 0,
        }
    }

    pub(crate) fn records(&self) -> u64
        ensures { result ≡ self.now.records }
    {
        self.records
    }

    pub(crate) fn alarms(&self) -> u64
        ensures { result ≡ self.now.alarms }
    {
        self.alarms
    }

    // The total line.
    pub(crate) fn text(&self) -> LineBuf
        ensures { result ≡ total_text self.now }
    {
        let mut line = LineBuf::new();
        line.text("total ");
        line.decimal(self.records);
        line.text(" accepted ");
        line.decimal(self.accepted);
        line.text(" sync ");
        line.decimal(self.synchronised);
        line.text(" alarms ");
        line.decimal(self.alarms);
        line.octet(b'\n');
        line
    }

    // Adds a line.
    pub(crate) fn count(&mut self, line: &Line)
        requires few { self.old.records < 2 ^ 64 - 1 }
        ensures { self.new ≡ with_line line.now self.old }
    {
        self.records += 1;
        self.accepted += u64::from(accepts(&line.verdict));
        self.synchronised += u64::from(synchronises(&line.verdict));
        self.alarms += u64::from(line.alarm);
    }
}

fn accepts(verdict: &Verdict) -> bool
    ensures { result ≡ accepts verdict.now }
{
    matches!(verdict, Verdict::Accepted { .. })
}

fn synchronises(verdict: &Verdict) -> bool
    ensures { result ≡ synchronises verdict.now }
{
    matches!(
        verdict,
        Verdict::SyncAsk { .. } | Verdict::SyncAnswer { .. }
    )
}

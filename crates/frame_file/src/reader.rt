ghost use Rattle.std.specs.Prelude.{◌≡◌, ◌≢◌, ◌+◌, ◌^◌, ◌<◌, ◌≤◌, length, [], IsSome, IfOk, Ok};
ghost use Rattle.knx_base.specs.Files.{Seen};
ghost use Rattle.frame_file.specs.Lists.{untimed};
ghost use Rattle.frame_file.specs.Logs.{most_logged};
ghost use Rattle.frame_file.specs.Reader.{IsAt, Advances, TakesLine, Steps};
ghost use Rattle.frame_file.specs.LeadView.{lead_of};
ghost use Rattle.frame_file.specs.LogReads.{ReadsLog};
ghost use Rattle.frame_file.specs.Stages.{IfLog, IsStageLog, log_in, SameButStage, GivesNext, step_of, given_at_first};

use crate::RecordFault;
use crate::fault::refusal;
use crate::lead::{Lead, LeadStep};
use crate::log_text::read_log;
use crate::octets::Octets;
use crate::stage::Stage;
use knx_base::Files;
use std::alloc::Global;
use text_lines::{LineRead, Source, TextLine, read_line};

/// The most records that a list may have.
const MOST_RECORDS: u64 = 10_000_000;

/// Reads the records of a file, each into room of its own.
#[derive(Drop)]
pub(crate) struct Reader {
    source: Source,
    line: TextLine,
    octets: Octets,
    time: Option<i64>,
    lines: u64,
    given: u64,
    stage: Stage,
}

/// What the next line was.
#[derive(Clone, Copy)]
enum Step {
    Given,
    Skipped,
    End,
}

impl Reader {
    ghost use Rattle.frame_file.specs.State.{state_of};

    pub(crate) fn new() -> Reader
        ensures start { state_of result ≡ record {
          stage = Stage.Start;
          lines = 0;
          given = 0;
          held = [];
          record_ = untimed [];
        } }
    {
        Reader {
            source: Source::new(),
            line: TextLine::new(),
            octets: Octets::new(),
            time: None,
            lines: 0,
            given: 0,
            stage: Stage::Start,
        }
    }

    /// How many records were given.
    pub(crate) fn given(&self) -> u64
        ensures given { result ≡ (state_of self.now).given }
    {
        self.given
    }

    /// The octets of the last record.
    pub(crate) fn octets(&self) -> &[u8]
        ensures octets { result.now ≡ (state_of self.now).record_.octets }
    {
        self.octets.bytes()
    }

    /// The time of the last record.
    pub(crate) fn time(&self) -> Option<i64>
        ensures time { result ≡ (state_of self.now).record_.time }
    {
        self.time
    }

    /// Reads on to the next record. The answer is whether there is one.
    pub(crate) fn advance<F: Files>(
        &mut self,
        alloc: Global,
        files: &mut F,
    ) -> Result<bool, RecordFault>
        requires at { IsAt (F.seen files.old) (state_of self.old) }
        ensures advances { Advances (F.seen files.old) (F.seen files.new) (state_of self.old) (state_of self.new)
            result }
        ensures later { (F.seen files.old).faults ≤ (F.seen files.new).faults }
    {
        'lines: loop {
            match self.step(alloc, files) {
                Ok(Step::Given) => return Ok(true),
                Ok(Step::Skipped) => {}
                Ok(Step::End) => return Ok(false),
                Err(fault) => return Err(fault),
            }
        }
    }

    fn step<F: Files>(&mut self, alloc: Global, files: &mut F) -> Result<Step, RecordFault>
        requires at { IsAt (F.seen files.old) (state_of self.old) }
        ensures steps { Steps (F.seen files.old) (F.seen files.new) (state_of self.old) (state_of self.new) result }
        ensures later { (F.seen files.old).faults ≤ (F.seen files.new).faults }
    {
        match &self.stage {
            Stage::Start => self.begin(alloc, files),
            Stage::Lines => self.next_line(files),
            Stage::Log(_) => self.next_logged(),
        }
    }

    // Reads up to the first record or line of a list, or the whole of a log.
    fn begin<F: Files>(&mut self, alloc: Global, files: &mut F) -> Result<Step, RecordFault>
        requires at { IsAt (F.seen files.old) (state_of self.old) }
        requires start { self.old.stage ≡ Stage.Start }
        ensures steps { Steps (F.seen files.old) (F.seen files.new) (state_of self.old) (state_of self.new) result }
        ensures later { (F.seen files.old).faults ≤ (F.seen files.new).faults }
    {
        let mut lead = Lead::new();
        let shown = lead.read(&mut self.source, &mut self.octets, files);
        if let Ok(LeadStep::Log) = shown {
            return self.begin_log(alloc, &lead, files);
        }
        self.begin_list(lead.lines, shown)
    }

    // The first line of a list that is no white space was this.
    fn begin_list(
        &mut self,
        lines: u64,
        shown: Result<LeadStep, RecordFault>,
    ) -> Result<Step, RecordFault>
        requires start { self.old.given ≡ 0 }
        requires list { shown ≢ Ok LeadStep.Log }
        ensures list { shown ≢ Ok LeadStep.Log }
        ensures shown { result ≡ step_of shown }
        ensures stage { self.new.stage ≡ Stage.Lines }
        ensures lines { self.new.lines ≡ lines }
        ensures given { self.new.given ≡ given_at_first shown }
        ensures held { self.new.source ≡ self.old.source }
        ensures entry { (state_of self.new).record_ ≡ untimed self.old.octets }
    {
        self.lines = lines;
        self.stage = Stage::Lines;
        self.time = None;
        match shown {
            Ok(LeadStep::Given) => {
                self.given = 1;
                Ok(Step::Given)
            }
            Ok(LeadStep::Skipped) => Ok(Step::Skipped),
            Ok(_) => Ok(Step::End),
            Err(fault) => Err(fault),
        }
    }

    fn begin_log<F: Files>(
        &mut self,
        alloc: Global,
        lead: &Lead,
        files: &mut F,
    ) -> Result<Step, RecordFault>
        requires current { IsSome (F.seen files.old).current }
        ensures log { IfOk result (λ step. (step ≡ Step.Skipped) × IsStageLog self.new.stage) }
        ensures reads { ReadsLog (F.seen files.old) (F.seen files.new) self.old.source self.new.source
            (lead_of lead.now) (log_in self.new.stage result) }
        ensures same { SameButStage (state_of self.old) (state_of self.new) }
        ensures later { (F.seen files.old).faults ≤ (F.seen files.new).faults }
    {
        match read_log(alloc, lead, &mut self.source, files) {
            Ok(log) => {
                self.stage = Stage::Log(log);
                Ok(Step::Skipped)
            }
            Err(fault) => Err(fault),
        }
    }

    fn next_logged(&mut self) -> Result<Step, RecordFault>
        requires few { IfLog self.old.stage (λ list. self.old.given + length list.records ≤ most_logged) }
        ensures gives { IfLog self.old.stage (λ list. GivesNext list (state_of self.old) (state_of self.new) result) }
    {
        let Stage::Log(log) = &mut self.stage else {
            return Ok(Step::End);
        };
        match log.next(&mut self.octets) {
            Ok(Some(time)) => {
                self.time = Some(time);
                self.given += 1;
                Ok(Step::Given)
            }
            Ok(None) => Ok(Step::End),
            Err(fault) => Err(fault),
        }
    }

    fn next_line<F: Files>(&mut self, files: &mut F) -> Result<Step, RecordFault>
        requires at { IsAt (F.seen files.old) (state_of self.old) }
        requires lines { self.old.stage ≡ Stage.Lines }
        ensures steps { Steps (F.seen files.old) (F.seen files.new) (state_of self.old) (state_of self.new) result }
        ensures later { (F.seen files.old).faults ≤ (F.seen files.new).faults }
    {
        match read_line(&mut self.source, files, &mut self.line) {
            Ok(LineRead::End) => Ok(Step::End),
            Ok(LineRead::Whole) => match self.take_line() {
                Ok(true) => Ok(Step::Given),
                Ok(false) => Ok(Step::Skipped),
                Err(fault) => Err(fault),
            },
            Ok(LineRead::Long) => Err(RecordFault::LongLine(self.lines + 1)),
            Err(_) => Err(RecordFault::ReadFault),
        }
    }

    fn take_line(&mut self) -> Result<bool, RecordFault>
        requires few { self.old.lines + 1 < 2 ^ 64 }
        ensures line { TakesLine (state_of self.old) (state_of self.new) self.old.line result }
        ensures counted { self.new.lines ≡ self.old.lines + 1 }
        ensures held { self.new.source ≡ self.old.source }
        ensures stage { self.new.stage ≡ self.old.stage }
    {
        self.lines += 1;
        match self.octets.take_line(self.line.bytes()) {
            Ok(false) => Ok(false),
            Err(cause) => Err(refusal(self.lines, cause)),
            Ok(true) if self.given >= MOST_RECORDS => Err(RecordFault::TooMany(self.lines)),
            Ok(true) => {
                self.time = None;
                self.given += 1;
                Ok(true)
            }
        }
    }
}

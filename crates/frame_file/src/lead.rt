ghost use Rattle.std.specs.Prelude.{◌≡◌, ℕ, ◌+◌, ◌^◌, ◌<◌, ◌≤◌, List, [], ◌==◌, ◌&&◌, IsSome, IfErr};
ghost use Rattle.knx_base.specs.Files.{Seen, last_place};
ghost use Rattle.text_lines.specs.Reading.{OthersStay};
ghost use Rattle.frame_file.specs.Lists.{IsOfText};
ghost use Rattle.frame_file.specs.Lead.{LeadIs, Takes, TakesListed, EndsFront, ReadsFront, may_begin, step_said};

use crate::RecordFault;
use crate::fault::refusal;
use crate::margin::Margin;
use crate::octets::Octets;
use crate::part::Part;
use knx_base::{Cause, Files};
use text_lines::Source;

/// The front of a file, before it shows of which kind the file is. Until then it is read as a list; where it is refused
/// as one it may still be a log.
#[derive(Drop)]
pub(crate) struct Lead {
    pub(crate) margin: Margin,
    pub(crate) taken: usize,
    pub(crate) lines: u64,
    part: Part,
    refused: Option<RecordFault>,
}

/// What an octet of the front was.
#[derive(Clone, Copy)]
pub(crate) enum LeadStep {
    /// One of a margin, or of a line.
    More,
    /// The first of a log, after the margin.
    Log,
    /// The end of a line of a list, with a record.
    Given,
    /// The end of a line of a list, without one.
    Skipped,
    /// None: the file has ended.
    End,
}

impl Lead {
    ghost use Rattle.frame_file.specs.LeadView.{lead_of};

    pub(crate) fn new() -> Lead
        ensures start { LeadIs (lead_of result) [] }
    {
        Lead {
            margin: Margin::Nothing,
            taken: 0,
            lines: 0,
            part: Part::new(),
            refused: None,
        }
    }

    /// Reads the current file up to what shows of which kind it is: the `<` of a log, or the first line of a list that
    /// is no white space. The octets of a record are taken.
    pub(crate) fn read<F: Files>(
        &mut self,
        source: &mut Source,
        octets: &mut Octets,
        files: &mut F,
    ) -> Result<LeadStep, RecordFault>
        requires current { IsSome (F.seen files.old).current }
        requires empty { source.old ≡ [] }
        requires last { (F.seen files.old).place ≤ last_place }
        requires start { LeadIs (lead_of self.old) [] }
        ensures reads { ReadsFront (F.seen files.old) (F.seen files.new) source.new (lead_of self.new) octets.new
            result }
        ensures later { (F.seen files.old).faults ≤ (F.seen files.new).faults }
        ensures told { (F.seen files.new).told ≡ (F.seen files.old).told }
        ensures others { OthersStay (F.seen files.old) (F.seen files.new) }
    {
        'octets: loop {
            match source.next(files) {
                Ok(Some(octet)) => match self.take(octet, octets) {
                    Ok(LeadStep::More) => {}
                    shown => return shown,
                },
                Ok(None) => return self.finish(octets),
                Err(_) => return Err(RecordFault::ReadFault),
            }
        }
    }

    fn take(&mut self, octet: u8, octets: &mut Octets) -> Result<LeadStep, RecordFault>
        requires few { self.old.taken < 2 ^ 48 }
        requires lines { self.old.lines < 2 ^ 48 }
        ensures takes { (front : List ℕ) → LeadIs (lead_of self.old) front
            → Takes (lead_of self.new) front octet octets.new result }
    {
        if self.begins_log(octet) {
            return Ok(LeadStep::Log);
        }
        self.margin = self.margin.after(octet);
        self.taken += 1;
        let shown = self.take_listed(octet, octets);
        if self.margin.is_over() {
            return shown;
        }
        match shown {
            Ok(_) => Ok(LeadStep::More),
            Err(fault) => {
                self.refused = Some(fault);
                Ok(LeadStep::More)
            }
        }
    }

    fn begins_log(&self, octet: u8) -> bool
        ensures begins { result ≡ (octet == 60 && may_begin self.now.margin) }
    {
        octet == b'<' && self.margin.may_begin()
    }

    // Takes one more octet of a list.
    fn take_listed(&mut self, octet: u8, octets: &mut Octets) -> Result<LeadStep, RecordFault>
        requires lines { self.old.lines < 2 ^ 48 }
        ensures takes { TakesListed (lead_of self.old) (lead_of self.new) octet octets.new result }
        ensures same { (self.new.margin ≡ self.old.margin) × (self.new.taken ≡ self.old.taken)
            × (self.new.refused ≡ self.old.refused) }
    {
        if let Some(fault) = self.refused {
            return Err(fault);
        }
        if octet == b'\n' {
            self.lines += 1;
            let said = octets.take_line(self.part.line());
            self.part.clear();
            said_in(self.lines, said)
        } else if self.part.is_full() {
            Err(RecordFault::LongLine(self.lines + 1))
        } else {
            self.part.push(octet);
            Ok(LeadStep::More)
        }
    }

    fn finish(&mut self, octets: &mut Octets) -> Result<LeadStep, RecordFault>
        requires lines { self.old.lines < 2 ^ 48 }
        ensures ends { (front : List ℕ) → LeadIs (lead_of self.old) front
            → EndsFront (lead_of self.new) front octets.new result }
    {
        if let Some(fault) = self.refused {
            return Err(fault);
        }
        if self.part.is_empty() {
            return Ok(LeadStep::End);
        }
        self.lines += 1;
        said_in(self.lines, octets.take_line(self.part.bytes()))
    }
}

// What a line says that has this number.
fn said_in(line: u64, said: Result<bool, Cause>) -> Result<LeadStep, RecordFault>
    ensures said { result ≡ step_said line said }
    ensures text { IfErr result IsOfText }
{
    match said {
        Ok(true) => Ok(LeadStep::Given),
        Ok(false) => Ok(LeadStep::Skipped),
        Err(cause) => Err(refusal(line, cause)),
    }
}

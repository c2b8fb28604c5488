ghost use Rattle.std.specs.Prelude.{◌≡◌, [], IsOk, OnOk, OnErr, true, None};
ghost use Rattle.cemi_frames.specs.Frames.{telegram};
ghost use Rattle.key_tables.specs.declared.types.Lane.{Lane};
ghost use Rattle.judge_rules.specs.Parts.{source_of};
ghost use Rattle.judge_rules.specs.Checks.{is_ask};
ghost use Rattle.sync_service.specs.Open.{asked_in, nobody_asked, with_pair};
ghost use Rattle.audit_core.specs.Audit.{mark_under, asked_under, receiver_of};
ghost use Rattle.audit_core.specs.Marks.{mark_in};
ghost use Rattle.audit_core.specs.State.{raised, exchanged};

use crate::marks::Marks;
use cemi_frames::Frame;
use judge_rules::{Judgement, Verdict};
use key_tables::Lane;
use knx_base::{IndAddr, NoMemory, Number48};
use std::alloc::Global;
use sync_service::AskedBook;

/// What the frames so far left behind: the marks of lanes, and the challenges that are open.
#[derive(Drop)]
pub(crate) struct Past {
    marks: Marks,
    asked: AskedBook,
}

impl Past {
    pub(crate) fn new(alloc: Global) -> Past
        ensures marks { result.marks ≡ [] }
        ensures asked { asked_in result.asked ≡ nobody_asked }
    {
        Past {
            marks: Marks::new(alloc),
            asked: AskedBook::new(alloc),
        }
    }

    /// The mark of a frame's lane.
    pub(crate) fn mark(&self, lane: Option<Lane>) -> Number48
        ensures { result ≡ mark_under (mark_in self.now.marks) lane }
    {
        self.marks.mark(lane)
    }

    /// The challenge that the receiver of a frame asked of its source.
    pub(crate) fn asked(&self, frame: &Frame<'_>) -> Option<[u8; 6]>
        ensures { result ≡ asked_under (asked_in self.now.asked) (telegram frame.now) }
    {
        self.asked.asked(receiver(frame), frame.source)
    }

    /// Takes what a judgement leaves behind. Either a number is kept or a challenge is noted, so that without memory
    /// nothing has changed.
    pub(crate) fn take(&mut self, frame: &Frame<'_>, judgement: &Judgement) -> Result<(), NoMemory>
        requires ask_keeps_nothing { is_ask judgement.now.verdict ≡ true → judgement.now.keeps ≡ None }
        ensures marks { IsOk result → (lane : Lane) → mark_in self.new.marks lane
            ≡ raised judgement.now.keeps lane (mark_in self.old.marks lane) }
        ensures asked { OnOk result (asked_in self.new.asked ≡ exchanged (source_of (telegram frame.now))
            (receiver_of (telegram frame.now)) judgement.now.verdict (asked_in self.old.asked)) }
        ensures unchanged { OnErr result (self.new ≡ self.old) }
    {
        match judgement.verdict {
            Verdict::SyncAsk { challenge, .. } => {
                self.asked.note(frame.source, receiver(frame), challenge)
            }
            Verdict::SyncAnswer { .. } => {
                self.keep(judgement.keeps)?;
                self.asked.close(receiver(frame), frame.source);
                Ok(())
            }
            _ => self.keep(judgement.keeps),
        }
    }

    fn keep(&mut self, keeps: Option<(Lane, Number48)>) -> Result<(), NoMemory>
        ensures marks { IsOk result → (lane : Lane) → mark_in self.new.marks lane
            ≡ raised keeps lane (mark_in self.old.marks lane) }
        ensures asked { self.new.asked ≡ self.old.asked }
        ensures unchanged { OnErr result (self.new ≡ self.old) }
    {
        match keeps {
            Some((lane, number)) => self.marks.raise(lane, number),
            None => Ok(()),
        }
    }
}

fn receiver(frame: &Frame<'_>) -> IndAddr
    ensures { result ≡ receiver_of (telegram frame.now) }
{
    IndAddr(frame.destination)
}

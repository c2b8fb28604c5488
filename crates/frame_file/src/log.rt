ghost use Rattle.std.specs.Prelude.{◌≡◌, ◌≤◌, length, drop, IfOk, IfErr, IfSome};
ghost use Rattle.tag_text.specs.Document.{outcome_of};
ghost use Rattle.frame_file.specs.Lists.{RecordList, IsOfText};
ghost use Rattle.frame_file.specs.Logs.{most_logged, entries_of};
ghost use Rattle.frame_file.specs.LogTurns.{TakesTelegram, IsOfReading, found_in, tag_refusal};

use crate::fault::RecordFault;
use crate::octets::Octets;
use crate::telegram::Telegram;
use std::alloc::Global;
use std::marker::Model;
use tag_text::{Tag, TagFault, TagReader};

/// The records of a log that are still to be given, and its refusal.
#[derive(Drop)]
pub(crate) struct Log {
    telegrams: Vec<Telegram>,
    given: usize,
    refused: Option<RecordFault>,
}

impl Model for Log {
    ghost Value = { RecordList };

    ghost view = { λ l. record { records = drop l.given l.telegrams.items; refused = l.refused } };

    ghost invariant = { λ l. length l.telegrams.items ≤ 16777216 };
}

impl Log {
    ghost use Rattle.frame_file.specs.LogTurns.{GivesLogged};

    fn of(telegrams: Vec<Telegram>, refused: Option<RecordFault>) -> Log
        requires few { length telegrams.items ≤ 16777216 }
        ensures log { result ≡ record { records = telegrams.items; refused = refused } }
    {
        Log {
            telegrams,
            given: 0,
            refused,
        }
    }

    /// The records of the log with these octets.
    pub(crate) fn read(alloc: Global, text: &[u8]) -> Result<Log, RecordFault>
        requires short { length text.now ≤ most_logged }
        ensures list { IfOk result (λ log. log ≡ entries_of (outcome_of text.now)) }
        ensures few { IfOk result (λ log. length log.records ≤ most_logged) }
        ensures text { IfOk result (λ log. IfSome log.refused IsOfText) }
        ensures memory { IfErr result (λ fault. fault ≡ RecordFault.NoMemory) }
    {
        let mut reader = TagReader::new(text);
        let mut telegrams = Vec::new(alloc);
        'telegrams: loop {
            match next_telegram(alloc, &mut reader) {
                Ok(Some(telegram)) => {
                    let Ok(()) = telegrams.push(telegram) else {
                        return Err(RecordFault::NoMemory);
                    };
                }
                Ok(None) => return Ok(Log::of(telegrams, None)),
                Err(RecordFault::NoMemory) => return Err(RecordFault::NoMemory),
                Err(fault) => return Ok(Log::of(telegrams, Some(fault))),
            }
        }
    }

    /// The time of the next record, whose octets are taken, or `None` where all were given.
    pub(crate) fn next(&mut self, octets: &mut Octets) -> Result<Option<i64>, RecordFault>
        ensures gives { GivesLogged self.old self.new octets.new result }
    {
        if self.given < self.telegrams.len() {
            let telegram = &self.telegrams[self.given];
            octets.set(&telegram.octets);
            self.given += 1;
            return Ok(Some(telegram.time));
        }
        match self.refused {
            Some(fault) => Err(fault),
            None => Ok(None),
        }
    }
}

// The next element named Telegram, `None` where the document has no more.
fn next_telegram(alloc: Global, reader: &mut TagReader<'_>) -> Result<Option<Telegram>, RecordFault>
    ensures takes { TakesTelegram reader.old reader.new result }
    ensures text { IfErr result IsOfReading }
{
    'tags: loop {
        match reader.next(alloc) {
            Ok(
                Tag::Start {
                    name,
                    attributes,
                    place,
                },
            ) => {
                if name.as_str() == "Telegram" {
                    return found(Telegram::read(alloc, &attributes, place));
                }
            }
            Ok(Tag::End { .. }) => {}
            Ok(Tag::Finish) => return Ok(None),
            Err(fault) => return Err(tag_refusal(fault)),
        }
    }
}

fn found(telegram: Result<Telegram, RecordFault>) -> Result<Option<Telegram>, RecordFault>
    ensures found { result ≡ found_in telegram }
    ensures text { IfErr telegram IsOfReading → IfErr result IsOfReading }
{
    match telegram {
        Ok(telegram) => Ok(Some(telegram)),
        Err(fault) => Err(fault),
    }
}

// A fault of memory is that of the records.
fn tag_refusal(fault: TagFault) -> RecordFault
    ensures refusal { result ≡ tag_refusal fault }
    ensures text { IsOfReading result }
{
    match fault {
        TagFault::NoMemory => RecordFault::NoMemory,
        _ => RecordFault::Tag(fault),
    }
}

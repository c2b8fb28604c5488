ghost use Rattle.std.specs.Prelude.{◌≡◌, ◌≢◌, ℕ, ◌+◌, ◌≤◌, List, [], ◌∷◌, ◌++◌, length, drop, ◌⊎◌, IsSome, IfOk, IfErr, IfSome, OnOk, Err, option_map};
ghost use Rattle.knx_base.specs.Faults.{HasCause, Rose};
ghost use Rattle.knx_base.specs.Files.{Seen};
ghost use Rattle.text_lines.specs.Reading.{GoesOn, OthersStay, WhereTold, ReadsRest, ahead};
ghost use Rattle.frame_file.specs.Lead.{IsFront};
ghost use Rattle.frame_file.specs.LeadView.{lead_of};
ghost use Rattle.frame_file.specs.LogReads.{ReadsLog};

use crate::fault::RecordFault;
use crate::lead::Lead;
use crate::log::Log;
use crate::margin::Margin;
use knx_base::{Failed, Files, NoMemory};
use std::alloc::Global;
use text_lines::Source;

/// The most octets that a log may have.
const MOST_OCTETS: usize = 16_777_216;

const BYTE_ORDER_MARK: [u8; 3] = [0xef, 0xbb, 0xbf];

/// A log with so long a margin, up to its first `<`; or `None` where it has too many octets. White space is told by its
/// length alone.
pub(crate) fn front(
    alloc: Global,
    margin: Margin,
    taken: usize,
) -> Result<Option<Vec<u8>>, NoMemory>
    ensures text { IfOk result (λ text. IsFront margin taken (option_map (λ text. text.items) text)) }
{
    if taken >= MOST_OCTETS {
        return Ok(None);
    }
    let mut text = Vec::new(alloc);
    if let Margin::Blanks(true) = margin {
        text.extend_from_slice(&BYTE_ORDER_MARK)?;
    }
    text.resize(taken, b' ')?;
    text.push(b'<')?;
    Ok(Some(text))
}

/// Adds what the current file has from its place on, or answers `None` where it is too much.
pub(crate) fn read_rest<F: Files>(
    mut text: Vec<u8>,
    source: &mut Source,
    files: &mut F,
) -> Result<Option<Vec<u8>>, RecordFault>
    requires current { IsSome (F.seen files.old).current }
    requires short { length text.items ≤ 16777216 }
    ensures goes { result ≢ Err RecordFault.ReadFault
        → GoesOn (F.seen files.old) (F.seen files.new) source.old source.new 0 }
    ensures rest { IfOk result (λ found. WhereTold (F.seen files.old)
        (λ octets. ReadsRest 16777216 (text.items ++ ahead (F.seen files.old) source.old octets)
        (drop (F.seen files.new).place octets) (option_map (λ text. text.items) found))) }
    ensures empty { IfOk result (λ found. IfSome found (λ text. source.new ≡ [])) }
    ensures few { IfOk result (λ found. IfSome found (λ text. length text.items ≤ 16777216)) }
    ensures told { (F.seen files.new).told ≡ (F.seen files.old).told }
    ensures others { OthersStay (F.seen files.old) (F.seen files.new) }
    ensures later { (F.seen files.old).faults ≤ (F.seen files.new).faults }
    ensures fault { IfErr result (λ fault. (fault ≡ RecordFault.NoMemory) ⊎ ((fault ≡ RecordFault.ReadFault)
        × Rose (F.seen files.old).faults (F.seen files.new).faults)) }
{
    'pieces: loop {
        let Ok(()) = refill(source, files) else {
            return Err(RecordFault::ReadFault);
        };
        if source.is_empty() {
            return Ok(Some(text));
        }
        if source.bytes().len() > MOST_OCTETS - text.len() {
            return Ok(None);
        }
        let Ok(()) = text.extend_from_slice(source.bytes()) else {
            return Err(RecordFault::NoMemory);
        };
        source.clear();
    }
}

// Reads the next octets of the current file where none are held, and holds none only at its end.
fn refill<F: Files>(source: &mut Source, files: &mut F) -> Result<(), Failed>
    requires current { IsSome (F.seen files.old).current }
    ensures told { (F.seen files.new).told ≡ (F.seen files.old).told }
    ensures others { OthersStay (F.seen files.old) (F.seen files.new) }
    ensures goes { OnOk result (GoesOn (F.seen files.old) (F.seen files.new) source.old source.new 0) }
    ensures given { OnOk result (WhereTold (F.seen files.old)
        (λ octets. ahead (F.seen files.old) source.old octets ≡ ahead (F.seen files.new) source.new octets)) }
    ensures end { OnOk result (source.new ≡ [] → WhereTold (F.seen files.old)
        (λ octets. drop (F.seen files.new).place octets ≡ [])) }
    ensures cause { HasCause (F.seen files.old).faults (F.seen files.new).faults result }
{
    if !source.is_empty() {
        return Ok(());
    }
    source.fill(files)
}

/// Reads the log whose first `<`, after this front, was taken.
pub(crate) fn read_log<F: Files>(
    alloc: Global,
    lead: &Lead,
    source: &mut Source,
    files: &mut F,
) -> Result<Log, RecordFault>
    requires current { IsSome (F.seen files.old).current }
    ensures reads { ReadsLog (F.seen files.old) (F.seen files.new) source.old source.new (lead_of lead.now) result }
    ensures later { (F.seen files.old).faults ≤ (F.seen files.new).faults }
{
    let Ok(front) = front(alloc, lead.margin, lead.taken) else {
        return Err(RecordFault::NoMemory);
    };
    let Some(front) = front else {
        return Err(RecordFault::LongFile);
    };
    match read_rest(front, source, files) {
        Ok(Some(text)) => Log::read(alloc, &text),
        Ok(None) => Err(RecordFault::LongFile),
        Err(fault) => Err(fault),
    }
}

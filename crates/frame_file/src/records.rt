use crate::RecordFault;
use crate::reader::Reader;
use knx_base::{Files, NoMemory};
use std::alloc::Global;
use std::marker::Model;

/// One record.
#[derive(Clone, Copy, Debug, PartialEq, Eq)]
pub struct Record<'a> {
    /// Its number, counted from 1.
    pub number: u64,
    /// When it was recorded, in milliseconds since 1970-01-01T00:00:00Z, rounded down. A list of frames says no time.
    pub time: Option<i64>,
    pub octets: &'a [u8],
}

/// The records of the current file. Where its first octet, after a byte order mark and white space, is `<`, it is a
/// recorded log: each element named Telegram is one, and the file is read whole at the first call. Otherwise it is a
/// list of frames: each line is the octets of one in hexadecimal, and a line without words or whose first word begins
/// with `#` is skipped. A list takes no memory: the value has room for one line.
///
/// A contract sees how many records were given, the fault that is answered from now on, if there is one, and the
/// records that are left, by the octets of the file that are still to be read. What was read ahead is no part of it.
#[derive(Drop)]
pub struct Records {
    alloc: Global,
    reader: Reader,
    fault: Option<RecordFault>,
}

impl Model for Records {
    ghost use Rattle.frame_file.specs.Next.{RecordsState};
    ghost use Rattle.frame_file.specs.State.{state_of, shown, Stands, records_code};
    ghost use Rattle.std.specs.Prelude.{◌≡◌, None};

    ghost Value = { RecordsState };

    ghost coded = { records_code };

    ghost view = { λ r. shown r.fault (state_of r.reader) };

    ghost invariant = { λ r. r.fault ≡ None → Stands (state_of r.reader) };
}

impl Records {
    ghost use Rattle.std.specs.Prelude.{◌≡◌, ◌≢◌, ◌≤◌, ℕ, List, Err, IfOk};
    ghost use Rattle.std.specs.Borrow.{sem};
    ghost use Rattle.std.specs.Str.Lines.{lines};
    ghost use Rattle.frame_file.specs.Next.{IsFresh, IsReading, Goes};
    ghost use Rattle.frame_file.specs.Records.{IsListOf, listed_in};
    ghost use Rattle.frame_file.specs.Given.{Gives, EndsSo};

    /// Ready for a file that was opened and of which nothing was read.
    #[tactic(auto, using(crate::proofs::ListLemmas::is_list))]
    pub fn new(alloc: Global) -> Result<Records, NoMemory>
        ensures start { IfOk result IsFresh }
        ensures lists { (octets : List ℕ) → IsListOf (lines octets) (listed_in octets) }
    {
        Ok(Records {
            alloc,
            reader: Reader::new(),
            fault: None,
        })
    }

    /// The next record, or `None` at the end of the file. After a fault that fault is answered again.
    pub fn next<F: Files>(&mut self, files: &mut F) -> Result<Option<Record<'_>>, RecordFault>
        requires reading { IsReading (F.seen files.old) self.old }
        ensures* gives { sem 𝓛 (EndsSo self.entry (λ new. Gives (F.seen files.old) (F.seen files.new) self.old new
            result)) }
        ensures kept { result ≢ Err RecordFault.ReadFault → (F.seen files.new).faults ≡ (F.seen files.old).faults }
        ensures later { (F.seen files.old).faults ≤ (F.seen files.new).faults }
    {
        if self.advance(files)? {
            Ok(Some(self.record()))
        } else {
            Ok(None)
        }
    }

    #[tactic(auto, using(crate::proofs::Kept::advances_kept))]
    fn advance<F: Files>(&mut self, files: &mut F) -> Result<bool, RecordFault>
        requires reading { IsReading (F.seen files.old) self.old }
        ensures goes { Goes (F.seen files.old) (F.seen files.new) self.old self.new result }
        ensures kept { result ≢ Err RecordFault.ReadFault → (F.seen files.new).faults ≡ (F.seen files.old).faults }
        ensures later { (F.seen files.old).faults ≤ (F.seen files.new).faults }
    {
        if let Some(fault) = self.fault {
            return Err(fault);
        }
        match self.reader.advance(self.alloc, files) {
            Ok(found) => Ok(found),
            Err(fault) => {
                self.fault = Some(fault);
                Err(fault)
            }
        }
    }

    fn record(&self) -> Record<'_>
        ensures number { result.number ≡ self.now.given }
        ensures octets { result.octets.now ≡ self.now.last.octets }
        ensures time { result.time ≡ self.now.last.time }
    {
        Record {
            number: self.reader.given(),
            time: self.reader.time(),
            octets: self.reader.octets(),
        }
    }
}

ghost use Rattle.std.specs.Prelude.{◌≡◌, ◌≢◌, ℕ, List, [], ◌∷◌, length, IsSome, Some, None, Ok, IsOk, IsErr, IfOk, OnOk, IfErr, MatchResult};
ghost use Rattle.std.specs.Option.{ForSome};
ghost use Rattle.knx_base.specs.Files.{File, Seen, Holds, IsThere};
ghost use Rattle.text_lines.specs.Reading.{WhereTold};
ghost use Rattle.text_lines.specs.Reading as reading;
ghost use Rattle.key_tables.specs.Build.{build_fault, merged};
ghost use Rattle.frame_file.specs.Records.{records_of};
ghost use Rattle.knxsec_app.specs.Answer.{Answers};
ghost use Rattle.knxsec_app.specs.Auditing.{frames_answer, installation, laid_over, rows_in, tables_answer, unless_many};
ghost use Rattle.knxsec_app.specs.Asked.{rows_of};
ghost use Rattle.knxsec_app.specs.Commands.{octets_in, IsRead, IsServed, IsWhole, OpensJust};
ghost use Rattle.knxsec_app.specs.Ends.{EndsReading, EndsTelling, OpensOne, ReadsToEnd, Stops, status_of};
ghost use Rattle.knxsec_app.specs.Order.{OpensFiles, OpensInOrder};

use crate::Status;
use crate::page::Page;
use crate::refusing::{refuse_merged, refuse_tables};
use crate::report::{finish, finish_frames, pass_line, stop_without_memory};
use crate::showing::{NothingShown, Showing};
use crate::whole_file::WholeFile;
use audit_core::Audit;
use frame_file::Records;
use key_tables::{Row, RowList, Tables, read_tables};
use knx_base::{Files, Sink};
use secure_apdu::ApduBuf;
use std::alloc::Global;

/// Judges the records of the file `frames` under the tables of the file `tables`, and under the rows `under` of a
/// keyring where there is one.
pub(crate) fn audit<F: Files, S: Sink>(
    alloc: Global,
    tables: &str,
    under: Option<&[Row]>,
    frames: &str,
    files: &mut F,
    out: &mut S,
) -> Status
    requires there { ForSome (F.seen files.old).told (λ told. IsThere told tables.now × IsThere told frames.now) }
    ensures answer { (told : List File) → (F.seen files.old).told ≡ Some told
        → Answers (tables_answer (rows_of under.entry) (octets_in told tables.now) (octets_in told frames.now)) result
        (S.octets out.old) (S.octets out.new) }
    ensures whole { IsWhole result → (told : List File) → (F.seen files.old).told ≡ Some told
        → IsRead told (F.seen files.new) tables.now × IsRead told (F.seen files.new) frames.now }
    ensures order { (told : List File) → (F.seen files.old).told ≡ Some told
        → OpensInOrder told (tables.now ∷ frames.now ∷ []) (F.seen files.old).places (F.seen files.new).places }
    ensures unopened { IsServed result → (told : List File) → (F.seen files.old).told ≡ Some told
        → IsErr (installation (rows_of under.entry) (octets_in told tables.now))
        → OpensJust (tables.now ∷ []) (F.seen files.old) (F.seen files.new) }
    ensures opens { OpensFiles (tables.now ∷ frames.now ∷ []) result (F.seen files.old) (F.seen files.new) }
    ensures ends { EndsReading (F.seen files.old) (F.seen files.new) (S.faults out.old) (S.faults out.new) result }
{
    match read_installation(alloc, tables, under, files, out) {
        Ok(rows) => audit_frames(alloc, rows, &NothingShown, frames, files, out),
        Err(status) => status,
    }
}

/// The rows of the named tables, over those of a keyring where there is one; or their refusal is told.
pub(crate) fn read_installation<F: Files, S: Sink>(
    alloc: Global,
    name: &str,
    under: Option<&[Row]>,
    files: &mut F,
    out: &mut S,
) -> Result<Tables, Status>
    requires there { ForSome (F.seen files.old).told (λ told. IsThere told name.now) }
    ensures rows { (told : List File) → (F.seen files.old).told ≡ Some told
        → MatchResult result (λ rows. installation (rows_of under.entry) (octets_in told name.now) ≡ Ok rows)
        (λ status. Stops (installation (rows_of under.entry) (octets_in told name.now)) status (S.octets out.old)
        (S.octets out.new)) }
    ensures read { IsOk result → (told : List File) → (F.seen files.old).told ≡ Some told
        → IsRead told (F.seen files.new) name.now }
    ensures told { (F.seen files.new).told ≡ (F.seen files.old).told }
    ensures opens { OpensOne (F.seen files.old) (F.seen files.new) name.now }
    ensures unwritten { OnOk result (out.new ≡ out.old) }
    ensures not_whole { IfErr result (λ status. IsWhole status → ⊥) }
    ensures ends { EndsReading (F.seen files.old) (F.seen files.new) (S.faults out.old) (S.faults out.new)
        (status_of result) }
{
    let text = WholeFile::Tables.read(alloc, name, files, out)?;
    rows_in(alloc, &text, under, out)
}

fn rows_in<S: Sink>(
    alloc: Global,
    text: &[u8],
    under: Option<&[Row]>,
    out: &mut S,
) -> Result<Tables, Status>
    ensures rows { MatchResult result (λ rows. rows_in (rows_of under.entry) text.now ≡ Ok rows)
        (λ status. Stops (rows_in (rows_of under.entry) text.now) status (S.octets out.old) (S.octets out.new)) }
    ensures unwritten { OnOk result (out.new ≡ out.old) }
    ensures not_whole { IfErr result (λ status. IsWhole status → ⊥) }
    ensures ends { EndsTelling (S.faults out.old) (S.faults out.new) (status_of result) }
{
    match read_tables(alloc, text) {
        Ok(rows) => laid_over(alloc, rows, under, out),
        Err(fault) => Err(refuse_tables(&fault, out)),
    }
}

fn laid_over<S: Sink>(
    alloc: Global,
    rows: RowList,
    under: Option<&[Row]>,
    out: &mut S,
) -> Result<Tables, Status>
    ensures rows { MatchResult result (λ found. laid_over (rows_of under.entry) rows ≡ Ok found)
        (λ status. Stops (laid_over (rows_of under.entry) rows) status (S.octets out.old) (S.octets out.new)) }
    ensures unwritten { OnOk result (out.new ≡ out.old) }
    ensures not_whole { IfErr result (λ status. IsWhole status → ⊥) }
    ensures ends { EndsTelling (S.faults out.old) (S.faults out.new) (status_of result) }
{
    match under {
        None => tables_of(alloc, rows),
        Some(under) => merge(alloc, rows.as_slice(), under, out),
    }
}

fn tables_of(alloc: Global, rows: RowList) -> Result<Tables, Status>
    ensures rows { IfOk result (λ found. found ≡ rows) }
    ensures no_memory { IfErr result (λ status. status ≡ Status.NoMemory) }
{
    let Ok(tables) = Tables::from_rows(alloc, rows) else {
        return Err(Status::NoMemory);
    };
    Ok(tables)
}

fn merge<S: Sink>(alloc: Global, over: &[Row], under: &[Row], out: &mut S) -> Result<Tables, Status>
    ensures rows { MatchResult result (λ rows. unless_many (build_fault (merged over.now under.now))
        (merged over.now under.now) ≡ Ok rows)
        (λ status. Stops (unless_many (build_fault (merged over.now under.now)) (merged over.now under.now)) status
        (S.octets out.old) (S.octets out.new)) }
    ensures unwritten { OnOk result (out.new ≡ out.old) }
    ensures not_whole { IfErr result (λ status. IsWhole status → ⊥) }
    ensures ends { EndsTelling (S.faults out.old) (S.faults out.new) (status_of result) }
{
    match Tables::merge(alloc, over, under) {
        Ok(tables) => Ok(tables),
        Err(fault) => Err(refuse_merged(&fault, out)),
    }
}

/// The audit of the named file under these tables, with what is to be shown behind each APDU.
pub(crate) fn audit_frames<F: Files, S: Sink, W: Showing>(
    alloc: Global,
    tables: Tables,
    showing: &W,
    frames: &str,
    files: &mut F,
    out: &mut S,
) -> Status
    requires there { ForSome (F.seen files.old).told (λ told. IsThere told frames.now) }
    ensures answer { (octets : List ℕ) → Holds (F.seen files.old) frames.now octets
        → Answers (frames_answer (W.shown showing.now) tables [] (records_of octets)) result (S.octets out.old)
        (S.octets out.new) }
    ensures whole { IsWhole result → (octets : List ℕ) → Holds (F.seen files.old) frames.now octets
        → (F.seen files.new).places frames.now ≡ length octets }
    ensures opens { OpensOne (F.seen files.old) (F.seen files.new) frames.now }
    ensures told { (F.seen files.new).told ≡ (F.seen files.old).told }
    ensures ends { EndsReading (F.seen files.old) (F.seen files.new) (S.faults out.old) (S.faults out.new) result }
{
    let Ok(()) = files.open(frames) else {
        return Status::ReadFault;
    };
    audit_current(alloc, tables, showing, files, out)
}

// The audit of the current file, of which nothing was read.
fn audit_current<F: Files, S: Sink, W: Showing>(
    alloc: Global,
    tables: Tables,
    showing: &W,
    files: &mut F,
    out: &mut S,
) -> Status
    requires current { IsSome (F.seen files.old).current }
    requires start { (F.seen files.old).place ≡ 0 }
    ensures answer { WhereTold (F.seen files.old) (λ octets. Answers (frames_answer (W.shown showing.now) tables []
        (records_of octets)) result (S.octets out.old) (S.octets out.new)) }
    ensures whole { IsWhole result → ReadsToEnd (F.seen files.old) (F.seen files.new) }
    ensures others { reading.OthersStay (F.seen files.old) (F.seen files.new) }
    ensures told { (F.seen files.new).told ≡ (F.seen files.old).told }
    ensures ends { EndsReading (F.seen files.old) (F.seen files.new) (S.faults out.old) (S.faults out.new) result }
{
    let Ok(mut records) = Records::new(alloc) else {
        return Status::NoMemory;
    };
    let Ok(mut page) = Page::new(alloc) else {
        return Status::NoMemory;
    };
    let mut audit = Audit::new(alloc, tables);
    let mut apdu = ApduBuf::new();
    'records: loop {
        match records.next(files) {
            Ok(Some(record)) => {
                let Ok(line) = audit.frame(record.octets, &mut apdu) else {
                    return stop_without_memory(&mut page, out);
                };
                let behind = showing.show(&line, apdu.bytes());
                let Ok(()) = pass_line(&line, record.time, &apdu, &behind, &mut page, out) else {
                    return Status::WriteFault;
                };
            }
            Ok(None) => return finish(&audit, &mut page, out),
            Err(fault) => return finish_frames(&fault, &mut page, out),
        }
    }
}

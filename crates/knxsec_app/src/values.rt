ghost use Rattle.std.specs.Prelude.{◌≡◌, ◌≢◌, ℕ, List, [], ◌∷◌, IsSome, Some, None, Ok, IsOk, IsErr, OnOk, IfErr, MatchResult};
ghost use Rattle.std.specs.Option.{ForSome};
ghost use Rattle.knx_base.specs.Files.{File, IsThere};
ghost use Rattle.datapoints.specs.Types.{types_of};
ghost use Rattle.knxsec_app.specs.Answer.{Answers};
ghost use Rattle.knxsec_app.specs.Commands.{octets_in, AreUnopened, IsRead, IsServed, IsWhole, OpensJust};
ghost use Rattle.knxsec_app.specs.Ends.{EndsReading, EndsTelling, OpensOne, Stops, status_of};
ghost use Rattle.knxsec_app.specs.Order.{OpensFiles, OpensInOrder};
ghost use Rattle.knxsec_app.specs.Values.{typed_answer, types_in, types_told, values_answer};
ghost use Rattle.knxsec_app.specs.Words.{AuditValues};

use crate::Status;
use crate::auditing::{audit_frames, read_installation};
use crate::refusing::refuse_types;
use crate::whole_file::WholeFile;
use crate::words::ValuesNames;
use datapoints::{Types, read_types};
use key_tables::Tables;
use knx_base::{Files, Sink};
use std::alloc::Global;

/// Judges the records of a file under tables, and shows the values of the groups that a file of types names.
pub(crate) fn audit_values<F: Files, S: Sink>(
    alloc: Global,
    names: &ValuesNames<'_>,
    files: &mut F,
    out: &mut S,
) -> Status
    requires there { ForSome (F.seen files.old).told (λ told. IsThere told names.now.tables.now
        × IsThere told names.now.types.now × IsThere told names.now.frames.now) }
    ensures answer { (told : List File) → (F.seen files.old).told ≡ Some told
        → Answers (values_answer (octets_in told names.now.tables.now) (octets_in told names.now.types.now)
        (octets_in told names.now.frames.now)) result (S.octets out.old) (S.octets out.new) }
    ensures whole { IsWhole result → (told : List File) → (F.seen files.old).told ≡ Some told
        → IsRead told (F.seen files.new) names.now.tables.now × IsRead told (F.seen files.new) names.now.types.now
        × IsRead told (F.seen files.new) names.now.frames.now }
    ensures unopened { IsServed result → (told : List File) → (F.seen files.old).told ≡ Some told
        → AreUnopened (Some (AuditValues names.now.tables.now names.now.types.now names.now.frames.now)) told
        (F.seen files.old) (F.seen files.new) }
    ensures order { (told : List File) → (F.seen files.old).told ≡ Some told
        → OpensInOrder told (names.now.tables.now ∷ names.now.types.now ∷ names.now.frames.now ∷ [])
        (F.seen files.old).places (F.seen files.new).places }
    ensures opens { OpensFiles (names.now.tables.now ∷ names.now.types.now ∷ names.now.frames.now ∷ []) result
        (F.seen files.old) (F.seen files.new) }
    ensures ends { EndsReading (F.seen files.old) (F.seen files.new) (S.faults out.old) (S.faults out.new) result }
{
    match read_installation(alloc, names.tables, None, files, out) {
        Ok(rows) => audit_typed(alloc, rows, names.types, names.frames, files, out),
        Err(status) => status,
    }
}

// The same under these rows.
fn audit_typed<F: Files, S: Sink>(
    alloc: Global,
    rows: Tables,
    types: &str,
    frames: &str,
    files: &mut F,
    out: &mut S,
) -> Status
    requires there { ForSome (F.seen files.old).told (λ told. IsThere told types.now × IsThere told frames.now) }
    ensures answer { (told : List File) → (F.seen files.old).told ≡ Some told
        → Answers (typed_answer rows (octets_in told types.now) (octets_in told frames.now)) result
        (S.octets out.old) (S.octets out.new) }
    ensures whole { IsWhole result → (told : List File) → (F.seen files.old).told ≡ Some told
        → IsRead told (F.seen files.new) types.now × IsRead told (F.seen files.new) frames.now }
    ensures order { (told : List File) → (F.seen files.old).told ≡ Some told
        → OpensInOrder told (types.now ∷ frames.now ∷ []) (F.seen files.old).places (F.seen files.new).places }
    ensures unopened { IsServed result → (told : List File) → (F.seen files.old).told ≡ Some told
        → IsErr (types_in (octets_in told types.now))
        → OpensJust (types.now ∷ []) (F.seen files.old) (F.seen files.new) }
    ensures opens { OpensFiles (types.now ∷ frames.now ∷ []) result (F.seen files.old) (F.seen files.new) }
    ensures ends { EndsReading (F.seen files.old) (F.seen files.new) (S.faults out.old) (S.faults out.new) result }
{
    match open_types(alloc, types, files, out) {
        Ok(types) => audit_frames(alloc, rows, &types, frames, files, out),
        Err(status) => status,
    }
}

// The types of the named file; or its refusal is told.
fn open_types<F: Files, S: Sink>(
    alloc: Global,
    name: &str,
    files: &mut F,
    out: &mut S,
) -> Result<Types, Status>
    requires there { ForSome (F.seen files.old).told (λ told. IsThere told name.now) }
    ensures types { (told : List File) → (F.seen files.old).told ≡ Some told
        → MatchResult result (λ types. types_in (octets_in told name.now) ≡ Ok types)
        (λ status. Stops (types_in (octets_in told name.now)) status (S.octets out.old) (S.octets out.new)) }
    ensures read { IsOk result → (told : List File) → (F.seen files.old).told ≡ Some told
        → IsRead told (F.seen files.new) name.now }
    ensures told { (F.seen files.new).told ≡ (F.seen files.old).told }
    ensures opens { OpensOne (F.seen files.old) (F.seen files.new) name.now }
    ensures unwritten { OnOk result (out.new ≡ out.old) }
    ensures not_whole { IfErr result (λ status. IsWhole status → ⊥) }
    ensures ends { EndsReading (F.seen files.old) (F.seen files.new) (S.faults out.old) (S.faults out.new)
        (status_of result) }
{
    let text = WholeFile::Types.read(alloc, name, files, out)?;
    types_in(alloc, &text, out)
}

fn types_in<S: Sink>(alloc: Global, text: &[u8], out: &mut S) -> Result<Types, Status>
    ensures types { MatchResult result (λ types. types_told (types_of text.now) ≡ Ok types)
        (λ status. Stops (types_told (types_of text.now)) status (S.octets out.old) (S.octets out.new)) }
    ensures unwritten { OnOk result (out.new ≡ out.old) }
    ensures not_whole { IfErr result (λ status. IsWhole status → ⊥) }
    ensures ends { EndsTelling (S.faults out.old) (S.faults out.new) (status_of result) }
{
    match read_types(alloc, text) {
        Ok(types) => Ok(types),
        Err(fault) => Err(refuse_types(&fault, out)),
    }
}

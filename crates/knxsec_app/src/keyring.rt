ghost use Rattle.std.specs.Prelude.{◌≡◌, ◌≢◌, ℕ, List, [], ◌∷◌, Some, IsOk, IsErr, Ok, OnOk, IfErr, MatchResult};
ghost use Rattle.std.specs.Option.{ForSome};
ghost use Rattle.knx_base.specs.Files.{File, IsThere};
ghost use Rattle.keyring_reader.specs.Keyring.{keyring_of};
ghost use Rattle.knxsec_app.specs.declared.whole_file.WholeFile;
ghost use Rattle.knxsec_app.specs.Answer.{Answers};
ghost use Rattle.knxsec_app.specs.Auditing.{keyring_answer, keyring_rows, keyring_told, password_of, within};
ghost use Rattle.knxsec_app.specs.Commands.{octets_in, AreUnopened, IsRead, IsServed, IsWhole, OpensJust};
ghost use Rattle.knxsec_app.specs.Ends.{EndsReading, EndsTelling, Stops, status_of};
ghost use Rattle.knxsec_app.specs.Order.{OpensFiles, OpensInOrder, ReadsInOrder};
ghost use Rattle.knxsec_app.specs.Words.{AuditKeyring};

use crate::Status;
use crate::auditing::audit;
use crate::refusing::refuse_keyring;
use crate::whole_file::WholeFile;
use crate::words::KeyringNames;
use keyring_reader::{Keyring, read_keyring};
use knx_base::{Files, Sink};
use std::alloc::Global;
use text_lines::Lines;

/// Judges the records of a file under tables and, where they say nothing of a channel, under the rows of a keyring.
pub(crate) fn audit_by_keyring<F: Files, S: Sink>(
    alloc: Global,
    names: &KeyringNames<'_>,
    files: &mut F,
    out: &mut S,
) -> Status
    requires there { ForSome (F.seen files.old).told (λ told. IsThere told names.now.keyring.now
        × IsThere told names.now.password.now
        × IsThere told names.now.tables.now × IsThere told names.now.frames.now) }
    ensures answer { (told : List File) → (F.seen files.old).told ≡ Some told
        → Answers (keyring_answer (octets_in told names.now.keyring.now) (octets_in told names.now.password.now)
        (octets_in told names.now.tables.now) (octets_in told names.now.frames.now)) result (S.octets out.old)
        (S.octets out.new) }
    ensures whole { IsWhole result → (told : List File) → (F.seen files.old).told ≡ Some told
        → IsRead told (F.seen files.new) names.now.keyring.now × IsRead told (F.seen files.new) names.now.password.now
        × IsRead told (F.seen files.new) names.now.tables.now × IsRead told (F.seen files.new) names.now.frames.now }
    ensures unopened { IsServed result → (told : List File) → (F.seen files.old).told ≡ Some told
        → AreUnopened (Some (AuditKeyring names.now.keyring.now names.now.password.now names.now.tables.now
        names.now.frames.now)) told (F.seen files.old) (F.seen files.new) }
    ensures order { (told : List File) → (F.seen files.old).told ≡ Some told
        → OpensInOrder told (names.now.keyring.now ∷ names.now.password.now ∷ names.now.tables.now
        ∷ names.now.frames.now ∷ []) (F.seen files.old).places (F.seen files.new).places }
    ensures opens { OpensFiles (names.now.keyring.now ∷ names.now.password.now ∷ names.now.tables.now
        ∷ names.now.frames.now ∷ []) result (F.seen files.old) (F.seen files.new) }
    ensures ends { EndsReading (F.seen files.old) (F.seen files.new) (S.faults out.old) (S.faults out.new) result }
{
    match open_keyring(alloc, names, files, out) {
        Ok(keyring) => audit(
            alloc,
            names.tables,
            Some(keyring.rows()),
            names.frames,
            files,
            out,
        ),
        Err(status) => status,
    }
}

// The keyring under its password; or the refusal of the first of the two files is told.
fn open_keyring<F: Files, S: Sink>(
    alloc: Global,
    names: &KeyringNames<'_>,
    files: &mut F,
    out: &mut S,
) -> Result<Keyring, Status>
    requires there { ForSome (F.seen files.old).told (λ told. IsThere told names.now.keyring.now
        × IsThere told names.now.password.now) }
    ensures rows { (told : List File) → (F.seen files.old).told ≡ Some told
        → MatchResult result (λ rows. keyring_rows (octets_in told names.now.keyring.now)
        (octets_in told names.now.password.now) ≡ Ok rows)
        (λ status. Stops (keyring_rows (octets_in told names.now.keyring.now) (octets_in told names.now.password.now))
        status (S.octets out.old) (S.octets out.new)) }
    ensures read { IsOk result → (told : List File) → (F.seen files.old).told ≡ Some told
        → IsRead told (F.seen files.new) names.now.keyring.now × IsRead told (F.seen files.new) names.now.password.now }
    ensures opens { OpensFiles (names.now.keyring.now ∷ names.now.password.now ∷ []) (status_of result)
        (F.seen files.old) (F.seen files.new) }
    ensures order { (told : List File) → (F.seen files.old).told ≡ Some told
        → MatchResult result
        (λ _. ReadsInOrder told (names.now.keyring.now ∷ names.now.password.now ∷ []) (F.seen files.old).places
        (F.seen files.new).places)
        (λ _. OpensInOrder told (names.now.keyring.now ∷ names.now.password.now ∷ []) (F.seen files.old).places
        (F.seen files.new).places) }
    ensures unopened { IsServed (status_of result) → (told : List File) → (F.seen files.old).told ≡ Some told
        → (IsErr (within WholeFile.Keyring (octets_in told names.now.keyring.now))
        → OpensJust (names.now.keyring.now ∷ []) (F.seen files.old) (F.seen files.new))
        × (IsOk (within WholeFile.Keyring (octets_in told names.now.keyring.now))
        → OpensJust (names.now.keyring.now ∷ names.now.password.now ∷ []) (F.seen files.old) (F.seen files.new)) }
    ensures unwritten { OnOk result (out.new ≡ out.old) }
    ensures not_whole { IfErr result (λ status. IsWhole status → ⊥) }
    ensures ends { EndsReading (F.seen files.old) (F.seen files.new) (S.faults out.old) (S.faults out.new)
        (status_of result) }
{
    let keyring = WholeFile::Keyring.read(alloc, names.keyring, files, out)?;
    let password = WholeFile::Password.read(alloc, names.password, files, out)?;
    opened(alloc, &keyring, password_in(&password), out)
}

fn opened<S: Sink>(
    alloc: Global,
    keyring: &[u8],
    password: &[u8],
    out: &mut S,
) -> Result<Keyring, Status>
    ensures rows { MatchResult result (λ rows. keyring_told (keyring_of keyring.now password.now) ≡ Ok rows)
        (λ status. Stops (keyring_told (keyring_of keyring.now password.now)) status (S.octets out.old)
        (S.octets out.new)) }
    ensures unwritten { OnOk result (out.new ≡ out.old) }
    ensures not_whole { IfErr result (λ status. IsWhole status → ⊥) }
    ensures ends { EndsTelling (S.faults out.old) (S.faults out.new) (status_of result) }
{
    match read_keyring(alloc, keyring, password) {
        Ok(keyring) => Ok(keyring),
        Err(fault) => Err(refuse_keyring(&fault, out)),
    }
}

// A password is the first line of its file.
fn password_in(text: &[u8]) -> &[u8]
    ensures { result.now ≡ password_of text.now }
{
    match Lines::new(text).next() {
        Some((_, line)) => line,
        None => &[],
    }
}

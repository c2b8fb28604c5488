ghost use Rattle.std.specs.Prelude.{◌≡◌, ℕ, List, Some, None};
ghost use Rattle.std.specs.Option.{ForSome};
ghost use Rattle.knx_base.specs.Files.{File};
ghost use Rattle.knxsec_app.specs.Answer.{Answers};
ghost use Rattle.knxsec_app.specs.Asked.{asked_of};
ghost use Rattle.knxsec_app.specs.Commands.{answer_to, AreFiles, AreRead, AreThere, AreUnopened, IsServed, IsWhole, LeavesAlone, Plays};
ghost use Rattle.knxsec_app.specs.Ends.{EndsReading, EndsWriting};
ghost use Rattle.knxsec_app.specs.Order.{OpensFiles, OpensInOrder, files_of};

use crate::Status;
use crate::auditing::audit;
use crate::encoding::encode;
use crate::ending::ended;
use crate::keyring::audit_by_keyring;
use crate::opening::open;
use crate::playing::{make, replay};
use crate::values::audit_values;
use crate::words::Command;
use install_run::World;
use knx_base::{Files, Sink, print_text};
use std::alloc::Global;

/// Does what was asked.
pub(crate) fn obey<F: Files, S: Sink>(
    alloc: Global,
    command: &Command<'_>,
    files: &mut F,
    out: &mut S,
    played: &mut Option<World>,
) -> Status
    requires there { ForSome (F.seen files.old).told (λ told. AreThere (Some (asked_of command.now)) told) }
    ensures answer { (told : List File) → AreFiles (Some (asked_of command.now)) (F.seen files.old) told
        → Answers (answer_to (Some (asked_of command.now)) told) result (S.octets out.old) (S.octets out.new) }
    ensures whole { IsWhole result → (told : List File) → AreFiles (Some (asked_of command.now)) (F.seen files.old) told
        → AreRead (Some (asked_of command.now)) told (F.seen files.new) }
    ensures unopened { IsServed result → (told : List File) → AreFiles (Some (asked_of command.now)) (F.seen files.old)
        told
        → AreUnopened (Some (asked_of command.now)) told (F.seen files.old) (F.seen files.new) }
    ensures order { (told : List File) → AreFiles (Some (asked_of command.now)) (F.seen files.old) told
        → OpensInOrder told (files_of (Some (asked_of command.now))) (F.seen files.old).places
        (F.seen files.new).places }
    ensures opens { OpensFiles (files_of (Some (asked_of command.now))) result (F.seen files.old) (F.seen files.new) }
    ensures ends { EndsReading (F.seen files.old) (F.seen files.new) (S.faults out.old) (S.faults out.new) result }
    ensures alone { LeavesAlone (Some (asked_of command.now)) result (files.new ≡ files.old) }
    ensures played { Plays (Some (asked_of command.now)) (F.seen files.old) result played.old played.new }
{
    match command {
        Command::Open { key, frame } => open(key, frame, out),
        Command::Audit { tables, frames } => audit(alloc, tables, None, frames, files, out),
        Command::AuditKeyring(names) => audit_by_keyring(alloc, names, files, out),
        Command::Replay { script } => replay(alloc, script, files, out, played),
        Command::Make { number, count } => make(alloc, *number, count, out, played),
        Command::AuditValues(names) => audit_values(alloc, names, files, out),
        Command::Encode { dpt, text } => encode(*dpt, text, out),
    }
}

/// Says how the program is called.
pub(crate) fn print_usage<S: Sink>(out: &mut S) -> Status
    ensures answer { (told : List File) → Answers (answer_to None told) result (S.octets out.old) (S.octets out.new) }
    ensures ends { EndsWriting (S.faults out.old) (S.faults out.new) result }
{
    ended(print_text(USAGE_LINE.as_bytes(), out), Status::Usage)
}

const USAGE_LINE: &str =
    "usage: knxsec open KEYHEX FRAMEHEX | audit TABLES FRAMES | audit-keyring KEYRING PASSWORDFILE TABLES FRAMES | \
         replay SCRIPT | make NUMBER COUNT | audit-values TABLES TYPES FRAMES | encode TYPE TEXT\n";

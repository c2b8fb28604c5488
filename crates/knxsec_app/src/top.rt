ghost use Rattle.std.specs.Prelude.{◌≡◌, ◌≢◌, ℕ, List, map, Option, None};
ghost use Rattle.std.specs.Option.{ForSome};
ghost use Rattle.std.specs.String.{string_bytes};
ghost use Rattle.knx_base.specs.Files.{File};
ghost use Rattle.knxsec_app.specs.Words.{command_of};
ghost use Rattle.knxsec_app.specs.Answer.{Answers};
ghost use Rattle.knxsec_app.specs.Commands.{answer_of, AreFiles, AreThere, LeavesAlone, Plays};
ghost use Rattle.knxsec_app.specs.Counted.{IsCounted};
ghost use Rattle.knxsec_app.specs.Order.{UsesFiles};
ghost use Rattle.knxsec_app.specs.Reasons.{HaveReasons};

use crate::Status;
use crate::obey::{obey, print_usage};
use crate::words::read_words;
use install_run::World;
use knx_base::{Files, Sink};
use std::alloc::Global;

/// Does what the words of a command line ask for: reads the files that they name, writes the report to `out`, and
/// answers how it ended.
///
/// - `open KEYHEX FRAMEHEX` opens one frame; its words write 16 octets, and 1 to 1,024, in hexadecimal.
/// - `audit TABLES FRAMES` judges the records of the file FRAMES under the tables of the file TABLES.
/// - `audit-keyring KEYRING PASSWORDFILE TABLES FRAMES` does so under the rows of a keyring too, which the password in
///   the file PASSWORDFILE opens. What the tables say of a channel stands in place of what the keyring says of it.
/// - `replay SCRIPT` steps an installation through the script in the file SCRIPT, and tells each step and how it ends.
/// - `make NUMBER COUNT` does so with the script that is made from a number up to 4,294,967,295, of 1 to 100,000
///   events, and tells what came of them in figures.
/// - `audit-values TABLES TYPES FRAMES` judges as `audit` does, and shows the values of the groups whose types
///   stand in the file TYPES.
/// - `encode TYPE TEXT` prints the APDU of a GroupValue_Write that carries the value of the text, or `no-value`.
///
/// With Done of `replay` or `make` the world that was stepped stands in `played`, which no other command touches.
///
/// The files are opened in the order of the words, each read to its end before the next. All other words are answered
/// by the usage line.
pub fn run<F: Files, S: Sink>(
    alloc: Global,
    words: &[String],
    files: &mut F,
    out: &mut S,
    played: &mut Option<World>,
) -> Status
    // Where the files tell their names, each that the words name is one of them.
    requires there { ForSome (F.seen files.old).told (λ told. AreThere (command_of (map string_bytes words.now)) told) }
    ensures answer { (told : List File) → AreFiles (command_of (map string_bytes words.now)) (F.seen files.old) told
        → Answers (answer_of (map string_bytes words.now) told) result (S.octets out.old) (S.octets out.new) }

    // Where the files tell their names, none is opened but those that the words name, in their order from the first on,
    // each after the one before was read to its end: none is opened twice that is not named twice. With Done and Alarm
    // all of them are opened and read to their ends; after a refusal those up to the refused one, and no further.
    ensures files { UsesFiles (command_of (map string_bytes words.now)) result (F.seen files.old) (F.seen files.new) }

    // No text is refused for a reason without words, and of merged rows none is said twice: they are too many.
    ensures reasons { HaveReasons }

    // Words of no form alone are answered by the usage line.
    ensures usage { result ≡ Status.Usage → command_of (map string_bytes words.now) ≡ None }

    // A fault is answered where it was counted in this call, and nowhere else is one counted.
    ensures counted { IsCounted (F.seen files.old) (F.seen files.new) (S.faults out.old) (S.faults out.new) result }

    // A command that names no file leaves the files alone; opening a frame and encoding a text take no memory.
    ensures alone { LeavesAlone (command_of (map string_bytes words.now)) result (files.new ≡ files.old) }

    // A replay leaves the world that it stepped. Every other command, and every other status, leaves what was there.
    ensures played { Plays (command_of (map string_bytes words.now)) (F.seen files.old) result played.old played.new }
{
    match read_words(words) {
        Some(command) => obey(alloc, &command, files, out, played),
        None => print_usage(out),
    }
}

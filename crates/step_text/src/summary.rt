//! The summary of a run that was made.
ghost use Rattle.std.specs.Prelude.{◌≡◌, ℕ, ◌+◌, ◌*◌, ◌≤◌, ◌++◌, ◌∷◌, [], List, length, codes};
ghost use Rattle.std.specs.Fmt.{decimal};
ghost use Rattle.knx_base.specs.Faults.{HasCause};
ghost use Rattle.knx_base.specs.Sink.{Prints};
ghost use Rattle.step_text.specs.Text.{counted_text, made_text, tally_text, summary_node_text};

use crate::put::put_number;
use knx_base::{Failed, LineBuf, Number48, Sink, print_text};
use script_text::Name;

/// How many telegrams were put on the air in a run, and how many of its steps had each outcome.
#[derive(Clone, Copy)]
pub struct Tally {
    pub telegrams: u64,
    pub acted: u64,
    pub answered: u64,
    pub synced: u64,
    pub refused: u64,
    pub ignored: u64,
    pub gone: u64,
    pub off: u64,
    pub cut: u64,
}

/// Writes the front of a summary: which script was made, with how many events, and the tally of its run.
pub fn print_made<S: Sink>(
    number: u32,
    count: u32,
    tally: &Tally,
    out: &mut S,
) -> Result<(), Failed>
    ensures text { Prints (S.octets out.old) (S.octets out.new) result
        (made_text number count ++ tally_text tally.now) }
    ensures cause { HasCause (S.faults out.old) (S.faults out.new) result }
{
    let mut line = LineBuf::new();
    put_number("make ", u64::from(number), &mut line);
    put_number(" ", u64::from(count), &mut line);
    line.octet(b'\n');
    put_tally(tally, &mut line);
    print_text(line.bytes(), out)
}

fn put_tally(tally: &Tally, line: &mut LineBuf)
    requires room { length line.old + 540 ≤ 1024 }
    ensures added { line.new ≡ line.old ++ tally_text tally.now }
    ensures short { length line.new ≤ length line.old + 540 }
{
    put_counted("telegrams", tally.telegrams, line);
    put_counted("acted", tally.acted, line);
    put_counted("answered", tally.answered, line);
    put_counted("synced", tally.synced, line);
    put_counted("refused", tally.refused, line);
    put_counted("ignored", tally.ignored, line);
    put_counted("gone", tally.gone, line);
    put_counted("off", tally.off, line);
    put_counted("cut", tally.cut, line);
}

// Adds the line of a count.
fn put_counted(word: &str, count: u64, line: &mut LineBuf)
    requires word { length word.now ≤ 10 }
    requires room { length line.old + 60 ≤ 1024 }
    ensures added { line.new ≡ line.old ++ counted_text word.now count }
    ensures short { length line.new ≤ length line.old + 60 }
{
    line.text(word);
    put_number(" ", count, line);
    line.octet(b'\n');
}

/// Writes the line of a node in a summary: how many entries its journal has, and the last number that its memory has
/// reserved.
pub fn print_summary_node<S: Sink>(
    name: &Name,
    journal: u64,
    reserved: Number48,
    out: &mut S,
) -> Result<(), Failed>
    ensures text { Prints (S.octets out.old) (S.octets out.new) result
        (summary_node_text name.now journal reserved) }
    ensures cause { HasCause (S.faults out.old) (S.faults out.new) result }
{
    let mut line = LineBuf::new();
    line.text("node ");
    line.octets(name.as_bytes());
    put_number(" journal ", journal, &mut line);
    put_number(" reserved ", reserved.get(), &mut line);
    line.octet(b'\n');
    print_text(line.bytes(), out)
}

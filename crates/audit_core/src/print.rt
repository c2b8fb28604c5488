ghost use Rattle.std.specs.Prelude.{◌≡◌, ℕ, ℤ, ◌+◌, ◌≤◌, ◌++◌, ◌∷◌, [], Option, length, codes};
ghost use Rattle.std.specs.Fmt.{decimal};
ghost use Rattle.knx_base.specs.Faults.{HasCause};
ghost use Rattle.knx_base.specs.Sink.{Prints};
ghost use Rattle.knx_base.specs.Address.{individual_text};
ghost use Rattle.judge_rules.specs.Text.{verdict_text};
ghost use Rattle.audit_core.specs.Text.{time_text, address_text, repeat_text, place_text, end_text, head_text, line_text, line_text_with};

use crate::{Addresses, Line};
use judge_rules::put_verdict;
use knx_base::{Failed, GroupAddr, IndAddr, LineBuf, Sink, print_text};
use secure_apdu::ApduBuf;

/// Writes the line of a record, with the milliseconds since 1970-01-01T00:00:00Z at which it was recorded where they
/// are known. `apdu` is the APDU that was opened, which the line of an accepted telegram shows.
pub fn print_line<S: Sink>(
    line: &Line,
    time: Option<i64>,
    apdu: &ApduBuf,
    out: &mut S,
) -> Result<(), Failed>
    ensures text { Prints (S.octets out.old) (S.octets out.new) result (line_text line.now time apdu.now) }
    ensures cause { HasCause (S.faults out.old) (S.faults out.new) result }
{
    print_line_with(line, time, apdu, &[], out)
}

/// The same with up to 32 octets behind the verdict and its APDU.
pub fn print_line_with<S: Sink>(
    line: &Line,
    time: Option<i64>,
    apdu: &ApduBuf,
    behind: &[u8],
    out: &mut S,
) -> Result<(), Failed>
    requires short { length behind.now ≤ 32 }
    ensures text { Prints (S.octets out.old) (S.octets out.new) result
        (line_text_with line.now time apdu.now behind.now) }
    ensures cause { HasCause (S.faults out.old) (S.faults out.new) result }
{
    let mut text = LineBuf::new();
    put_line(line, time, apdu, behind, &mut text);
    print_text(text.bytes(), out)
}

fn put_line(line: &Line, time: Option<i64>, apdu: &ApduBuf, behind: &[u8], text: &mut LineBuf)
    requires empty { text.old ≡ [] }
    requires short { length behind.now ≤ 32 }
    ensures { text.new ≡ line_text_with line.now time apdu.now behind.now }
{
    put_head(line, time, text);
    put_verdict(&line.verdict, apdu.bytes(), text);
    text.octets(behind);
    text.text(if line.alarm { " !\n" } else { "\n" });
}

// What stands before the verdict.
fn put_head(line: &Line, time: Option<i64>, text: &mut LineBuf)
    requires empty { text.old ≡ [] }
    ensures head { text.new ≡ head_text line.now time }
    ensures short { length text.new ≤ 120 }
{
    text.decimal(line.index);
    put_time(time, text);
    text.octet(b' ');
    put_place(&line.addresses, line.repeated, text);
    text.octet(b' ');
}

fn put_time(time: Option<i64>, line: &mut LineBuf)
    requires room { length line.old + 30 ≤ 1024 }
    ensures added { line.new ≡ line.old ++ time_text time }
    ensures short { length line.new ≤ length line.old + 30 }
{
    if let Some(time) = time {
        line.text(" @");
        if time < 0 {
            line.octet(b'-');
        }
        line.decimal(time.unsigned_abs());
    }
}

fn put_place(addresses: &Option<Addresses>, repeated: bool, line: &mut LineBuf)
    requires room { length line.old + 40 ≤ 1024 }
    ensures added { line.new ≡ line.old ++ place_text addresses.now repeated }
    ensures short { length line.new ≤ length line.old + 40 }
{
    match addresses {
        None => line.octet(b'-'),
        Some(found) => put_addresses(found, repeated, line),
    }
}

fn put_addresses(found: &Addresses, repeated: bool, line: &mut LineBuf)
    requires room { length line.old + 40 ≤ 1024 }
    ensures added { line.new ≡ line.old ++ individual_text found.now.source.0 ++ codes " > "
        ++ address_text found.now.group found.now.destination ++ repeat_text repeated }
    ensures short { length line.new ≤ length line.old + 40 }
{
    line.individual(found.source);
    line.text(" > ");
    if found.group {
        line.group(GroupAddr(found.destination));
    } else {
        line.individual(IndAddr(found.destination));
    }
    if repeated {
        line.text(" repeat");
    }
}

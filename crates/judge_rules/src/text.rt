ghost use Rattle.std.specs.Prelude.{◌≡◌, ◌++◌, ◌∷◌, [], ◌+◌, ◌≤◌, ◌<◌, ◌/◌, ◌%◌, ℕ, List, length, codes, drop};
ghost use Rattle.std.specs.Fmt.{decimal};
ghost use Rattle.hex.specs.Hex.{encode_lower};
ghost use Rattle.knx_base.specs.Faults.{HasCause};
ghost use Rattle.knx_base.specs.Sink.{Prints};
ghost use Rattle.plain_apdu.specs.Service.{name_of};
ghost use Rattle.judge_rules.specs.Text.{octet_text, not_frame_text, bad_secure_text, service_text, role_name, bits_text, bad_service_text, bad_object_text, verdict_text};

use crate::{BadService, Verdict};
use cemi_frames::NotFrame;
use key_tables::Role;
use knx_base::{Failed, LineBuf, Number48, Sink, print_text};
use knx_ccm::CodeDiffers;
use plain_apdu::{BadObject, Service, service_name};
use secure_apdu::BadSecure;

// How many octets are written in hexadecimal at a time.
const PIECE: usize = 256;

/// Writes the text of a verdict, without a line end. `apdu` is the APDU that was opened, which the text of an accepted
/// telegram shows.
pub fn write_verdict<S: Sink>(verdict: &Verdict, apdu: &[u8], out: &mut S) -> Result<(), Failed>
    ensures text { Prints (S.octets out.old) (S.octets out.new) result (verdict_text verdict.now apdu.now) }
    ensures cause { HasCause (S.faults out.old) (S.faults out.new) result }
{
    let mut line = LineBuf::new();
    put_verdict(verdict, &[], &mut line);
    print_text(line.bytes(), out)?;

    // Only the text of an accepted telegram has the APDU, at its end.
    match verdict {
        Verdict::Accepted { .. } => print_octets(apdu, out),
        _ => Ok(()),
    }
}

/// Writes octets in hexadecimal, two digits each in lower case, in pieces that fit a line.
pub fn print_octets<S: Sink>(octets: &[u8], out: &mut S) -> Result<(), Failed>
    ensures text { Prints (S.octets out.old) (S.octets out.new) result (encode_lower octets.now) }
    ensures cause { HasCause (S.faults out.old) (S.faults out.new) result }
{
    let mut rest = octets;
    while !rest.is_empty() {
        let (piece, more) = rest.split_at(rest.len().min(PIECE));
        print_piece(piece, out)?;
        rest = more;
    }
    Ok(())
}

fn print_piece<S: Sink>(octets: &[u8], out: &mut S) -> Result<(), Failed>
    requires short { length octets.now ≤ 256 }
    ensures text { Prints (S.octets out.old) (S.octets out.new) result (encode_lower octets.now) }
    ensures cause { HasCause (S.faults out.old) (S.faults out.new) result }
{
    let mut line = LineBuf::new();
    line.hex(octets);
    print_text(line.bytes(), out)
}

/// Adds the text of a verdict to a line, as `write_verdict` writes it: at most 600 octets.
pub fn put_verdict(verdict: &Verdict, apdu: &[u8], line: &mut LineBuf)
    requires short { length apdu.now ≤ 242 }
    requires room { length line.old + 600 ≤ 1024 }
    ensures added { line.new ≡ line.old ++ verdict_text verdict.now apdu.now }
    ensures length { length line.new ≤ length line.old + 600 }
{
    match verdict {
        Verdict::Accepted { number, service } => put_accepted(number, *service, apdu, line),
        Verdict::SyncAsk { number, challenge } => put_ask(number, challenge, line),
        Verdict::SyncAnswer { number, kept } => {
            put_two_numbers(
                "sync-answer number ",
                number.get(),
                " kept ",
                kept.get(),
                line,
            );
        }
        Verdict::NotFrame(fault) => put_not_frame(fault, line),
        Verdict::Control(octet) => put_octet("control ", *octet, line),
        Verdict::Plain(service) => put_plain(service, line),
        Verdict::BadSecure(fault) => put_bad_secure(fault, line),
        Verdict::NoKey => line.text("no-key"),
        Verdict::NoPending => line.text("no-pending"),
        Verdict::BadCode(codes) => put_bad_code(codes, line),
        Verdict::BadPayload { said, number } => {
            put_two_numbers(
                "bad-payload said ",
                said.get(),
                " number ",
                number.get(),
                line,
            );
        }
        Verdict::Sender => line.text("sender"),
        Verdict::Stale { kept, got } => {
            put_two_numbers("stale kept ", kept.get(), " got ", got.get(), line);
        }
        Verdict::Level => line.text("level"),
        Verdict::Role { needs, has } => put_role(*needs, *has, line),
        Verdict::Service(found) => put_bad_service(found, line),
        Verdict::Object(found) => put_bad_object(found, line),
    }
}

fn put_accepted(number: &Number48, service: Service, apdu: &[u8], line: &mut LineBuf)
    requires short { length apdu.now ≤ 242 }
    requires room { length line.old + 600 ≤ 1024 }
    ensures added { line.new ≡ line.old ++ codes "accepted number " ++ decimal number.now ++ 32 ∷ [] ++ name_of service
        ++ 32 ∷ [] ++ encode_lower apdu.now }
    ensures length { length line.new ≤ length line.old + 600 }
{
    line.text("accepted number ");
    line.decimal(number.get());
    line.octet(b' ');
    line.text(service_word(service));
    line.octet(b' ');
    line.hex(apdu);
}

fn put_ask(number: &Number48, challenge: &[u8; 6], line: &mut LineBuf)
    requires room { length line.old + 120 ≤ 1024 }
    ensures added { line.new ≡ line.old ++ codes "sync-ask number " ++ decimal number.now ++ codes " challenge "
        ++ encode_lower challenge.now }
    ensures length { length line.new ≤ length line.old + 120 }
{
    line.text("sync-ask number ");
    line.decimal(number.get());
    line.text(" challenge ");
    line.hex(challenge);
}

fn put_two_numbers(first: &str, number: u64, second: &str, other: u64, line: &mut LineBuf)
    requires first { length first.now ≤ 40 }
    requires second { length second.now ≤ 40 }
    requires room { length line.old + 120 ≤ 1024 }
    ensures added { line.new ≡ line.old ++ (first.now ++ decimal number ++ second.now ++ decimal other) }
    ensures length { length line.new ≤ length line.old + 120 }
{
    put_number(first, number, line);
    put_number(second, other, line);
}

fn put_role(needs: Role, has: Role, line: &mut LineBuf)
    requires room { length line.old + 120 ≤ 1024 }
    ensures added { line.new ≡ line.old ++ (codes "role needs " ++ role_name needs ++ codes " has " ++ role_name has) }
    ensures length { length line.new ≤ length line.old + 120 }
{
    line.text("role needs ");
    line.text(role_word(needs));
    line.text(" has ");
    line.text(role_word(has));
}

fn role_word(role: Role) -> &'static str
    ensures word { result.now ≡ role_name role }
    ensures short { length result.now ≤ 7 }
{
    match role {
        Role::Observe => "observe",
        Role::Command => "command",
        Role::Manage => "manage",
    }
}

fn put_bad_service(found: &BadService, line: &mut LineBuf)
    requires room { length line.old + 120 ≤ 1024 }
    ensures added { line.new ≡ line.old ++ bad_service_text found.now }
    ensures length { length line.new ≤ length line.old + 120 }
{
    match found {
        BadService::UpperBits(octet) => put_octet("service upper ", *octet, line),
        BadService::Code(bits) => put_bits(*bits, line),
    }
}

#[tactic(auto, unfolding(hex::specs::Hex::encode_with))]
fn put_bits(bits: u16, line: &mut LineBuf)
    requires room { length line.old + 120 ≤ 1024 }
    ensures added { line.new ≡ line.old ++ codes "service " ++ bits_text bits }
    ensures length { length line.new ≤ length line.old + 120 }
{
    let [high, low] = bits.to_be_bytes();
    let mut digits = LineBuf::new();
    digits.hex(&[high]);
    line.text("service ");
    line.octet(digits.bytes()[1]);
    line.hex(&[low]);
}

fn put_bad_object(found: &BadObject, line: &mut LineBuf)
    requires room { length line.old + 120 ≤ 1024 }
    ensures added { line.new ≡ line.old ++ bad_object_text found.now }
    ensures length { length line.new ≤ length line.old + 120 }
{
    match found {
        BadObject::Flag => line.text("object flag"),
        BadObject::Size(found, wanted) => {
            put_two_numbers(
                "object size ",
                u64::from(*found),
                " ",
                u64::from(*wanted),
                line,
            );
        }
    }
}

fn put_not_frame(fault: &NotFrame, line: &mut LineBuf)
    requires room { length line.old + 120 ≤ 1024 }
    ensures added { line.new ≡ line.old ++ not_frame_text fault.now }
    ensures length { length line.new ≤ length line.old + 120 }
{
    match fault {
        NotFrame::Short(found) => put_number("not-frame short ", *found as u64, line),
        NotFrame::Code(code) => put_octet("not-frame code ", *code, line),
        NotFrame::Info(place) => put_number("not-frame info ", *place as u64, line),
        NotFrame::Format(control) => put_octet("not-frame format ", *control, line),
        NotFrame::Escape => line.text("not-frame escape"),
        NotFrame::Length(said, found) => {
            put_two_numbers("not-frame length ", *said as u64, " ", *found as u64, line);
        }
        NotFrame::Check(said, computed) => {
            put_two_octets("not-frame check ", *said, *computed, line);
        }
        NotFrame::Acknowledge(octet) => put_octet("not-frame acknowledge ", *octet, line),
    }
}

fn put_bad_secure(fault: &BadSecure, line: &mut LineBuf)
    requires room { length line.old + 120 ≤ 1024 }
    ensures added { line.new ≡ line.old ++ bad_secure_text fault.now }
    ensures length { length line.new ≤ length line.old + 120 }
{
    match fault {
        BadSecure::Short(found) => put_number("bad-secure short ", u64::from(*found), line),
        BadSecure::Algorithm(algorithm) => {
            put_number("bad-secure algorithm ", u64::from(*algorithm), line);
        }
        BadSecure::Broadcast => line.text("bad-secure broadcast"),
        BadSecure::Service(service) => {
            put_number("bad-secure service ", u64::from(*service), line);
        }
        BadSecure::Sync(field, length) => {
            put_octet_and_number("bad-secure sync ", *field, u64::from(*length), line);
        }
    }
}

fn put_plain(service: &Option<Service>, line: &mut LineBuf)
    requires room { length line.old + 120 ≤ 1024 }
    ensures added { line.new ≡ line.old ++ (codes "plain " ++ service_text service.now) }
    ensures length { length line.new ≤ length line.old + 120 }
{
    line.text("plain ");
    match service {
        Some(service) => line.text(service_word(*service)),
        None => line.text("Short"),
    }
}

fn service_word(service: Service) -> &'static str
    ensures word { result.now ≡ name_of service }
    ensures short { length result.now ≤ 30 }
{
    service_name(service)
}

fn put_bad_code(found: &CodeDiffers, line: &mut LineBuf)
    requires room { length line.old + 120 ≤ 1024 }
    ensures added { line.new ≡ line.old ++ (codes "bad-code said " ++ encode_lower found.now.said ++ codes " computed "
        ++ encode_lower found.now.computed) }
    ensures length { length line.new ≤ length line.old + 120 }
{
    line.text("bad-code said ");
    line.hex(&found.said);
    line.text(" computed ");
    line.hex(&found.computed);
}

fn put_octet(text: &str, octet: u8, line: &mut LineBuf)
    requires short { length text.now ≤ 40 }
    requires room { length line.old + 60 ≤ 1024 }
    ensures added { line.new ≡ line.old ++ (text.now ++ octet_text octet) }
    ensures length { length line.new ≤ length line.old + 60 }
{
    line.text(text);
    line.hex(&[octet]);
}

fn put_two_octets(text: &str, octet: u8, other: u8, line: &mut LineBuf)
    requires short { length text.now ≤ 40 }
    requires room { length line.old + 120 ≤ 1024 }
    ensures added { line.new ≡ line.old ++ (text.now ++ octet_text octet ++ 32 ∷ [] ++ octet_text other) }
    ensures length { length line.new ≤ length line.old + 120 }
{
    put_octet(text, octet, line);
    line.octet(b' ');
    line.hex(&[other]);
}

fn put_octet_and_number(text: &str, octet: u8, number: u64, line: &mut LineBuf)
    requires short { length text.now ≤ 40 }
    requires room { length line.old + 120 ≤ 1024 }
    ensures added { line.new ≡ line.old ++ (text.now ++ octet_text octet ++ 32 ∷ [] ++ decimal number) }
    ensures length { length line.new ≤ length line.old + 120 }
{
    put_octet(text, octet, line);
    line.octet(b' ');
    line.decimal(number);
}

fn put_number(text: &str, number: u64, line: &mut LineBuf)
    requires short { length text.now ≤ 40 }
    requires room { length line.old + 60 ≤ 1024 }
    ensures added { line.new ≡ line.old ++ (text.now ++ decimal number) }
    ensures length { length line.new ≤ length line.old + 60 }
{
    line.text(text);
    line.decimal(number);
}

ghost use Rattle.std.specs.Prelude.{◌≡◌, ◌≢◌, ◌+◌, ◌++◌, codes, ◌≤◌, length};
ghost use Rattle.keyring_reader.specs.Attributes.{name_of};
ghost use Rattle.knxsec_app.specs.Answer.{Answer, Answers};
ghost use Rattle.knxsec_app.specs.Commands.{IsWhole};
ghost use Rattle.knxsec_app.specs.Ends.{EndsTelling, EndsWriting};
ghost use Rattle.knxsec_app.specs.Refusing.{at_line, at_place, document_reason, field_name, frames_reason, keyring_reason, missing_reason, stored_text, refused, EndsMerged, EndsScript, EndsTables, EndsTypes};

use crate::Status;
use crate::ending::ended;
use datapoints::TypesFault;
use frame_file::{Field, RecordFault};
use key_tables::{BuildFault, TablesFault};
use keyring_reader::{Attribute, KeyringFault};
use knx_base::{LineBuf, Sink, print_text};
use script_text::ScriptFault;
use tag_text::TagFault;

/// Says why a file is refused.
pub(crate) fn refuse<S: Sink>(line: &LineBuf, out: &mut S) -> Status
    ensures answer { Answers (record { report = line.now; status = Status.Refused }) result (S.octets out.old)
        (S.octets out.new) }
    ensures ends { EndsWriting (S.faults out.old) (S.faults out.new) result }
    ensures not_whole { IsWhole result → ⊥ }
    ensures no_usage { result ≢ Status.Usage }
{
    ended(print_text(line.bytes(), out), Status::Refused)
}

/// Refuses a file for a reason of the whole of it.
pub(crate) fn refuse_whole<S: Sink>(file: &str, reason: &str, out: &mut S) -> Status
    requires short { length file.now ≤ 20 }
    requires short_reason { length reason.now ≤ 20 }
    ensures answer { Answers (refused file.now reason.now) result (S.octets out.old) (S.octets out.new) }
    ensures ends { EndsWriting (S.faults out.old) (S.faults out.new) result }
    ensures not_whole { IsWhole result → ⊥ }
    ensures no_usage { result ≢ Status.Usage }
{
    refuse(&whole_line(file, reason), out)
}

fn whole_line(file: &str, reason: &str) -> LineBuf
    requires short { length file.now ≤ 20 }
    requires short_reason { length reason.now ≤ 20 }
    ensures { result ≡ (refused file.now reason.now).report }
{
    let mut line = LineBuf::new();
    line.text("refused ");
    line.text(file);
    line.text(reason);
    line.octet(b'\n');
    line
}

/// Says why a text of tables is refused.
pub(crate) fn refuse_tables<S: Sink>(fault: &TablesFault, out: &mut S) -> Status
    ensures answer { EndsTables fault.now result (S.octets out.old) (S.octets out.new) }
    ensures memory { result ≡ Status.NoMemory → fault.now ≡ TablesFault.NoMemory }
    ensures ends { EndsTelling (S.faults out.old) (S.faults out.new) result }
    ensures not_whole { IsWhole result → ⊥ }
{
    match fault {
        TablesFault::Line(line, cause) => refuse(&line_at("tables", *line, cause.word()), out),
        TablesFault::Twice(line) => refuse(&line_at("tables", *line, "twice"), out),
        TablesFault::TooMany(line) => refuse(&line_at("tables", *line, "many"), out),
        TablesFault::NoMemory => Status::NoMemory,
    }
}

/// Says why a text of types is refused.
pub(crate) fn refuse_types<S: Sink>(fault: &TypesFault, out: &mut S) -> Status
    ensures answer { EndsTypes fault.now result (S.octets out.old) (S.octets out.new) }
    ensures memory { result ≡ Status.NoMemory → fault.now ≡ TypesFault.NoMemory }
    ensures ends { EndsTelling (S.faults out.old) (S.faults out.new) result }
    ensures not_whole { IsWhole result → ⊥ }
{
    match fault {
        TypesFault::Line(line, cause) => refuse(&line_at("types", *line, cause.word()), out),
        TypesFault::Twice(line) => refuse(&line_at("types", *line, "twice"), out),
        TypesFault::TooMany(line) => refuse(&line_at("types", *line, "many"), out),
        TypesFault::NoMemory => Status::NoMemory,
    }
}

/// Says why a script is refused.
pub(crate) fn refuse_script<S: Sink>(fault: &ScriptFault, out: &mut S) -> Status
    ensures answer { EndsScript fault.now result (S.octets out.old) (S.octets out.new) }
    ensures memory { result ≡ Status.NoMemory → fault.now ≡ ScriptFault.NoMemory }
    ensures ends { EndsTelling (S.faults out.old) (S.faults out.new) result }
    ensures not_whole { IsWhole result → ⊥ }
{
    match fault {
        ScriptFault::Line(line, cause) => refuse(&line_at("script", *line, cause.word()), out),
        ScriptFault::Order(line) => refuse(&line_at("script", *line, "order"), out),
        ScriptFault::Twice(line) => refuse(&line_at("script", *line, "twice"), out),
        ScriptFault::TooMany(line) => refuse(&line_at("script", *line, "many"), out),
        ScriptFault::NoMemory => Status::NoMemory,
    }
}

/// The line for a file that is refused for a word at the line of this number.
pub(crate) fn line_at(file: &str, number: u64, word: &str) -> LineBuf
    requires short { length file.now ≤ 20 }
    requires short_word { length word.now ≤ 20 }
    ensures { result ≡ (refused file.now (at_line number word.now)).report }
{
    let mut line = LineBuf::new();
    line.text("refused ");
    line.text(file);
    line.text(" line ");
    line.decimal(number);
    line.octet(b' ');
    line.text(word);
    line.octet(b'\n');
    line
}

/// Why the records of a file are refused. A reader that stopped without a refusal has no reason to tell.
pub(crate) fn frames_line(fault: &RecordFault) -> LineBuf
    ensures { result ≡ (refused (codes "frames") (frames_reason fault.now)).report }
{
    match fault {
        RecordFault::Line(line, cause) => line_at("frames", *line, cause.word()),
        RecordFault::LongLine(line) => line_at("frames", *line, "long"),
        RecordFault::TooMany(line) => line_at("frames", *line, "many"),
        RecordFault::LongFile => whole_line("frames", " long"),
        RecordFault::Tag(fault) => document_line("frames", fault),
        RecordFault::Missing(field, place) => missing_line("frames", *place, field_name(*field)),
        RecordFault::Time(place) => place_line("frames", *place, "time"),
        RecordFault::Digits(place) => place_line("frames", *place, "digits"),
        RecordFault::ReadFault => whole_line("frames", ""),
        RecordFault::NoMemory => whole_line("frames", ""),
    }
}

fn field_name(field: Field) -> &'static str
    ensures name { result.now ≡ field_name field }
    ensures short { length result.now ≤ 20 }
{
    match field {
        Field::Timestamp => "Timestamp",
        Field::RawData => "RawData",
    }
}

/// Says that there are too many merged rows: no two of them say the same.
pub(crate) fn refuse_merged<S: Sink>(fault: &BuildFault, out: &mut S) -> Status
    ensures answer { EndsMerged fault.now result (S.octets out.old) (S.octets out.new) }
    ensures memory { result ≡ Status.NoMemory → fault.now ≡ BuildFault.NoMemory }
    ensures ends { EndsTelling (S.faults out.old) (S.faults out.new) result }
    ensures not_whole { IsWhole result → ⊥ }
{
    match fault {
        BuildFault::Twice(_) => refuse_whole("keyring", " many", out),
        BuildFault::TooMany(_) => refuse_whole("keyring", " many", out),
        BuildFault::NoMemory => Status::NoMemory,
    }
}

/// Says why a keyring is refused.
pub(crate) fn refuse_keyring<S: Sink>(fault: &KeyringFault, out: &mut S) -> Status
    ensures answer { fault.now ≢ KeyringFault.NoMemory → Answers (refused (codes "keyring") (keyring_reason fault.now))
        result (S.octets out.old) (S.octets out.new) }
    ensures no_memory { fault.now ≡ KeyringFault.NoMemory → (result ≡ Status.NoMemory)
        × (S.octets out.new ≡ S.octets out.old) }
    ensures memory { result ≡ Status.NoMemory → fault.now ≡ KeyringFault.NoMemory }
    ensures ends { EndsTelling (S.faults out.old) (S.faults out.new) result }
    ensures not_whole { IsWhole result → ⊥ }
{
    if *fault == KeyringFault::NoMemory {
        Status::NoMemory
    } else {
        refuse(&keyring_line(fault), out)
    }
}

fn keyring_line(fault: &KeyringFault) -> LineBuf
    ensures { result ≡ (refused (codes "keyring") (keyring_reason fault.now)).report }
{
    match fault {
        KeyringFault::Tag(fault) => document_line("keyring", fault),
        KeyringFault::NotKeyring => whole_line("keyring", " root"),
        KeyringFault::Missing(attribute, place) => {
            missing_line("keyring", *place, attribute_name(*attribute))
        }
        KeyringFault::LongText(place) => place_line("keyring", *place, "long-text"),
        KeyringFault::Signature { stored, computed } => signature_line(stored, computed),
        KeyringFault::Key(place) => place_line("keyring", *place, "key"),
        KeyringFault::Address(place) => place_line("keyring", *place, "address"),
        KeyringFault::Twice(place) => place_line("keyring", *place, "twice"),
        KeyringFault::NoMemory => whole_line("keyring", ""),
    }
}

// Why a file is no document of elements.
fn document_line(file: &str, fault: &TagFault) -> LineBuf
    requires short { length file.now ≤ 20 }
    ensures { result ≡ (refused file.now (document_reason fault.now)).report }
{
    match fault {
        TagFault::Bad(place) => place_line(file, *place, "bad"),
        TagFault::Utf8(place) => place_line(file, *place, "utf8"),
        TagFault::Deep(place) => place_line(file, *place, "deep"),
        TagFault::NoMemory => whole_line(file, ""),
    }
}

// The line for a file that is refused for a word at this place.
fn place_line(file: &str, place: usize, word: &str) -> LineBuf
    requires short { length file.now ≤ 20 }
    requires short_word { length word.now ≤ 20 }
    ensures { result ≡ (refused file.now (at_place place word.now)).report }
{
    let mut line = LineBuf::new();
    line.text("refused ");
    line.text(file);
    line.text(" at ");
    line.decimal(place as u64);
    line.octet(b' ');
    line.text(word);
    line.octet(b'\n');
    line
}

// The line for a file whose element at this place lacks an attribute.
fn missing_line(file: &str, place: usize, attribute: &str) -> LineBuf
    requires short { length file.now ≤ 20 }
    requires short_attribute { length attribute.now ≤ 20 }
    ensures { result ≡ (refused file.now (missing_reason attribute.now place)).report }
{
    let mut line = LineBuf::new();
    line.text("refused ");
    line.text(file);
    line.text(" at ");
    line.decimal(place as u64);
    line.text(" missing ");
    line.text(attribute);
    line.octet(b'\n');
    line
}

#[tactic(auto, using(crate::proofs::Refused::name_short))]
fn attribute_name(attribute: Attribute) -> &'static str
    ensures name { result.now ≡ name_of attribute }
    ensures short { length result.now ≤ 20 }
{
    attribute.name()
}

fn signature_line(stored: &Option<[u8; 16]>, computed: &[u8; 16]) -> LineBuf
    ensures { result ≡ (refused (codes "keyring") (keyring_reason
        (KeyringFault.Signature stored.now computed.now))).report }
{
    let mut line = LineBuf::new();
    line.text("refused keyring signature ");
    put_stored(stored, &mut line);
    line.octet(b' ');
    line.hex(computed);
    line.octet(b'\n');
    line
}

fn put_stored(stored: &Option<[u8; 16]>, line: &mut LineBuf)
    requires room { length line.old + 32 ≤ 1024 }
    ensures added { line.new ≡ line.old ++ stored_text stored.now }
    ensures short { length line.new ≤ length line.old + 32 }
{
    match stored {
        Some(stored) => line.hex(stored),
        None => line.octet(b'-'),
    }
}

ghost use Rattle.std.specs.Prelude.{◌≡◌, ◌∷◌, [], map};
ghost use Rattle.std.specs.Option.{option_map};
ghost use Rattle.std.specs.String.{string_bytes};
ghost use Rattle.datapoints.specs.Names.{type_named};
ghost use Rattle.knxsec_app.specs.Words.{command_of, count_of, encoding, making, number_of, opening, octets_between};
ghost use Rattle.knxsec_app.specs.Asked.{asked_of};

use crate::count_word::EventCount;
use crate::frame_word::FrameWord;
use datapoints::Dpt;
use hex::FromHex;
use knx_base::read_decimal;

/// What the words ask for.
#[derive(Drop)]
pub(crate) enum Command<'a> {
    /// To open this frame under this key.
    Open { key: [u8; 16], frame: FrameWord },
    /// To judge the records of one file under the tables of another.
    Audit { tables: &'a str, frames: &'a str },
    /// The same under the rows of a keyring too.
    AuditKeyring(KeyringNames<'a>),
    /// To step an installation through a script.
    Replay { script: &'a str },
    /// The same with the script that is made from a number, of so many events.
    Make { number: u32, count: EventCount },
    /// To judge records under tables, and to show the values of the groups that have a type.
    AuditValues(ValuesNames<'a>),
    /// To print the APDU that writes the value of this text.
    Encode { dpt: Dpt, text: &'a str },
}

/// The names of the files of an audit by a keyring.
#[derive(Clone, Copy)]
pub(crate) struct KeyringNames<'a> {
    pub(crate) keyring: &'a str,
    pub(crate) password: &'a str,
    pub(crate) tables: &'a str,
    pub(crate) frames: &'a str,
}

/// The names of the files of an audit with values.
#[derive(Clone, Copy)]
pub(crate) struct ValuesNames<'a> {
    pub(crate) tables: &'a str,
    pub(crate) types: &'a str,
    pub(crate) frames: &'a str,
}

fn read_key(word: &str) -> Option<[u8; 16]>
    ensures octets { result ≡ octets_between 16 16 word.now }
{
    match <[u8; 16] as FromHex>::from_hex(word) {
        Ok(key) => Some(key),
        Err(_) => None,
    }
}

/// What the words ask for, or None where they are of no form.
pub(crate) fn read_words(words: &[String]) -> Option<Command<'_>>
    ensures asked { option_map asked_of result ≡ command_of (map string_bytes words.now) }
{
    match words {
        [verb, script] => read_one(verb, script),
        [verb, first, second] => read_two(verb, first, second),
        [verb, tables, types, frames] => {
            let names = ValuesNames {
                tables,
                types,
                frames,
            };
            read_three(verb, names)
        }
        [verb, keyring, password, tables, frames] => {
            let names = KeyringNames {
                keyring,
                password,
                tables,
                frames,
            };
            read_four(verb, names)
        }
        _ => None,
    }
}

fn read_one<'a>(verb: &str, script: &'a str) -> Option<Command<'a>>
    ensures asked { option_map asked_of result ≡ command_of (verb.now ∷ script.now ∷ []) }
{
    if verb == "replay" {
        Some(Command::Replay { script })
    } else {
        None
    }
}

fn read_three<'a>(verb: &str, names: ValuesNames<'a>) -> Option<Command<'a>>
    ensures asked { option_map asked_of result ≡ command_of (verb.now ∷ names.entry.tables.now
        ∷ names.entry.types.now ∷ names.entry.frames.now ∷ []) }
{
    if verb == "audit-values" {
        Some(Command::AuditValues(names))
    } else {
        None
    }
}

fn read_four<'a>(verb: &str, names: KeyringNames<'a>) -> Option<Command<'a>>
    ensures asked { option_map asked_of result ≡ command_of (verb.now ∷ names.entry.keyring.now
        ∷ names.entry.password.now
        ∷ names.entry.tables.now ∷ names.entry.frames.now ∷ []) }
{
    if verb == "audit-keyring" {
        Some(Command::AuditKeyring(names))
    } else {
        None
    }
}

fn read_two<'a>(verb: &str, first: &'a str, second: &'a str) -> Option<Command<'a>>
    ensures asked { option_map asked_of result ≡ command_of (verb.now ∷ first.now ∷ second.now ∷ []) }
{
    match verb {
        "open" => read_opening(first, second),
        "audit" => Some(Command::Audit {
            tables: first,
            frames: second,
        }),
        "make" => read_making(first, second),
        "encode" => read_encoding(first, second),
        _ => None,
    }
}

fn read_encoding<'a>(dpt: &str, text: &'a str) -> Option<Command<'a>>
    ensures asked { option_map asked_of result ≡ encoding (type_named dpt.now) text.now }
{
    let Some(dpt) = Dpt::read(dpt) else {
        return None;
    };
    Some(Command::Encode { dpt, text })
}

fn read_making<'a>(number: &str, count: &str) -> Option<Command<'a>>
    ensures asked { option_map asked_of result ≡ making (number_of number.now) (count_of count.now) }
{
    let Some(number) = read_decimal(number, u32::MAX as u64) else {
        return None;
    };
    let Some(count) = EventCount::read(count) else {
        return None;
    };
    Some(Command::Make {
        number: number as u32,
        count,
    })
}

fn read_opening<'a>(key: &str, frame: &str) -> Option<Command<'a>>
    ensures asked { option_map asked_of result ≡ opening (octets_between 16 16 key.now)
        (octets_between 1 1024 frame.now) }
{
    let Some(key) = read_key(key) else {
        return None;
    };
    let Some(frame) = FrameWord::read(frame) else {
        return None;
    };
    Some(Command::Open { key, frame })
}

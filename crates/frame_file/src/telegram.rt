ghost use Rattle.std.specs.Prelude.{◌≡◌, ◌≤◌, ◌⊎◌, length, Some, Ok, Err, IfOk, IfErr, IfSome, option_map};
ghost use Rattle.frame_file.specs.Lists.{Entry};
ghost use Rattle.frame_file.specs.LogTurns.{IsOfReading};
ghost use Rattle.frame_file.specs.Logs.{millisecond_of, octets_of_digits, telegram_of};

use crate::fault::{Field, RecordFault};
use jiff::Timestamp;
use knx_base::NoMemory;
use std::alloc::Global;
use std::marker::Model;
use tag_text::Attributes;

/// The most octets that an element of a log writes, two digits each.
pub(crate) const MOST_OCTETS: usize = 1024;

const NANOSECONDS: i128 = 1_000_000;

/// A record of a log, with its time in milliseconds since 1970-01-01T00:00:00Z.
#[derive(Drop)]
pub(crate) struct Telegram {
    pub(crate) time: i64,
    pub(crate) octets: Vec<u8>,
}

impl Model for Telegram {
    ghost Value = { Entry };

    ghost view = { λ t. record { time = Some t.time; octets = t.octets.items } };

    ghost invariant = { λ t. length t.octets.items ≤ 1024 };
}

impl Telegram {
    /// What the element at this place says by its attributes.
    pub(crate) fn read(
        alloc: Global,
        attributes: &Attributes,
        place: usize,
    ) -> Result<Telegram, RecordFault>
        ensures told { IfOk result (λ telegram. telegram_of attributes.now place ≡ Ok telegram) }
        ensures fault { IfErr result (λ fault. (fault ≡ RecordFault.NoMemory)
            ⊎ (telegram_of attributes.now place ≡ Err fault)) }
        ensures text { IfErr result IsOfReading }
    {
        let Some(timestamp) = attributes.get("Timestamp") else {
            return Err(RecordFault::Missing(Field::Timestamp, place));
        };
        let Some(digits) = attributes.get("RawData") else {
            return Err(RecordFault::Missing(Field::RawData, place));
        };
        let Some(time) = millisecond_of(timestamp) else {
            return Err(RecordFault::Time(place));
        };
        match octets_of_digits(alloc, digits) {
            Ok(Some(octets)) => Ok(Telegram { time, octets }),
            Ok(None) => Err(RecordFault::Digits(place)),
            Err(_) => Err(RecordFault::NoMemory),
        }
    }
}

// The milliseconds are rounded down, also before 1970.
fn millisecond_of(text: &str) -> Option<i64>
    ensures time { result ≡ millisecond_of text.now }
{
    let instant = text.parse::<Timestamp>().ok()?;
    Some(instant.as_nanosecond().div_euclid(NANOSECONDS) as i64)
}

fn octets_of_digits(alloc: Global, digits: &str) -> Result<Option<Vec<u8>>, NoMemory>
    ensures octets { IfOk result (λ octets. option_map (λ octets. octets.items) octets ≡ octets_of_digits digits.now) }
    ensures short { IfOk result (λ octets. IfSome octets (λ octets. length octets.items ≤ 1024)) }
{
    if digits.is_empty() || digits.len() > 2 * MOST_OCTETS {
        return Ok(None);
    }
    match hex::decode(alloc, digits) {
        Ok(octets) => Ok(Some(octets)),
        Err(hex::FromHexError::OutOfMemory) => Err(NoMemory),
        Err(_) => Ok(None),
    }
}

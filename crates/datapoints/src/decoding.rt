ghost use Rattle.std.specs.Prelude.{◌≡◌, ◌≤◌, [], length, drop, MatchBool, MatchResult, Some, None, OnOk, OnErr, IfErr};
ghost use Rattle.datapoints.specs.Values.{HasValue, HasNoText, HasOneText};
ghost use Rattle.datapoints.specs.Texts.{SaysText};
ghost use Rattle.datapoints.specs.Apdus.{apdu_size, value_in, Carries, IsBadValue};
ghost use Rattle.datapoints.specs.Shown.{text_in};

use crate::calendar::write_date;
use crate::characters::write_characters;
use crate::clock::write_time;
use crate::numbers::{number_of_four, number_of_one, number_of_two, write_float, write_signed};
use crate::switch::write_switch;
use crate::{Dpt, ValueText};

/// Why an APDU carries no value of a type.
#[derive(Clone, Copy, Debug, PartialEq, Eq)]
pub enum BadValue {
    /// It has so many octets, and the type wants so many.
    Size(u8, u8),
    /// Its octets are no value of the type.
    Range,
}

/// Writes the text of the value that an APDU of 2 to 242 octets carries.
pub fn decode(dpt: Dpt, apdu: &[u8], out: &mut ValueText) -> Result<(), BadValue>
    requires least { 2 ≤ length apdu.now }
    requires most { length apdu.now ≤ 242 }
    ensures text { OnOk result (Carries dpt apdu.now out.new) }
    ensures fault { IfErr result (IsBadValue dpt apdu.now) }
    ensures empty { OnErr result (out.new ≡ []) }
    ensures one_text { HasOneText dpt (value_in dpt apdu.now) }
    ensures exact { MatchResult result (λ _. text_in dpt apdu.now ≡ Some out.new)
        (λ _. text_in dpt apdu.now ≡ None) }
    ensures law { length apdu.now ≡ apdu_size dpt → SaysText dpt (value_in dpt apdu.now) }
{
    out.clear();
    let found = apdu.len() as u8;
    let wanted = dpt.apdu_size();
    if found != wanted {
        return Err(BadValue::Size(found, wanted));
    }
    if write_value(dpt, apdu, out) {
        return Ok(());
    }
    out.clear();
    Err(BadValue::Range)
}

// Writes the text of the value that the APDU carries, if it carries one.
fn write_value(dpt: Dpt, apdu: &[u8], out: &mut ValueText) -> bool
    requires size { length apdu.now ≡ apdu_size dpt }
    requires empty { out.old ≡ [] }
    ensures { MatchBool result (HasValue dpt (value_in dpt apdu.now) out.new) (HasNoText dpt (value_in dpt apdu.now)) }
{
    let content = &apdu[2..];
    match dpt {
        Dpt::Switch => return write_switch(apdu[1] % 64, out),
        Dpt::Scaling => out.hundredths(number_of_one(content) * 10_000 / 255),
        Dpt::U8 => out.decimal(number_of_one(content)),
        Dpt::U16 => out.decimal(number_of_two(content)),
        Dpt::U32 => out.decimal(number_of_four(content)),
        Dpt::I8 => write_signed(number_of_one(content), 1 << 7, out),
        Dpt::I16 => write_signed(number_of_two(content), 1 << 15, out),
        Dpt::I32 => write_signed(number_of_four(content), 1 << 31, out),
        Dpt::Hundredths => return write_float(content, out),
        Dpt::Time => return write_time(content, out),
        Dpt::Date => return write_date(content, out),
        Dpt::Text14 => return write_characters(content, out),
    }
    true
}

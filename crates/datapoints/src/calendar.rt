ghost use Rattle.std.specs.Prelude.{◌≡◌, ◌+◌, ◌*◌, ◌≤◌, ◌↔◌, [], length, pos, IsTrue, MatchBool, MatchOption};
ghost use Rattle.jiff.specs.Words.{IsDate};
ghost use Rattle.datapoints.specs.declared.dpt.Dpt.TheVariants as dpt;
ghost use Rattle.datapoints.specs.Values.{century_of, HasValue, HasNoText, IsTextOfNone};

use crate::number_texts::read_two_digits;
use crate::{ValueOctets, ValueText};
use jiff::civil::Date;

/// Writes the text of a date, if the three octets are one.
pub(crate) fn write_date(octets: &[u8], out: &mut ValueText) -> bool
    requires size { length octets.now ≡ 3 }
    requires empty { out.old ≡ [] }
    ensures { MatchBool result (HasValue dpt.Date octets.now out.new) (HasNoText dpt.Date octets.now) }
{
    let (day, month, year) = (octets[0], octets[1], octets[2]);
    if year > 99 || !is_date(year, month, day) {
        return false;
    }
    out.two_digits(century_of(year));
    out.two_digits(year);
    out.octet(b'-');
    out.two_digits(month);
    out.octet(b'-');
    out.two_digits(day);
    true
}

/// The octets of the date whose text this is.
pub(crate) fn octets_of_date(text: &str) -> Option<ValueOctets>
    ensures { MatchOption result (IsTextOfNone dpt.Date text.now) (λ octets. HasValue dpt.Date octets text.now) }
{
    let [c1, c0, y1, y0, b'-', m1, m0, b'-', d1, d0] = text.as_bytes() else {
        return None;
    };
    let century = read_two_digits(*c1, *c0)?;
    let year = read_two_digits(*y1, *y0)?;
    let month = read_two_digits(*m1, *m0)?;
    let day = read_two_digits(*d1, *d0)?;
    if century != century_of(year) || !is_date(year, month, day) {
        return None;
    }
    Some(ValueOctets::of(&[day, month, year]))
}

// Of two digits of a year those from 90 on are of the twentieth century.
fn century_of(year: u8) -> u8
    ensures { result ≡ century_of year }
{
    if year >= 90 { 19 } else { 20 }
}

fn is_date(year: u8, month: u8, day: u8) -> bool
    requires { year ≤ 99 }
    ensures { IsTrue result ↔ IsDate (pos (century_of year * 100 + year)) (pos month) (pos day) }
{
    if month > 12 || day > 31 {
        return false;
    }
    let year = i16::from(century_of(year)) * 100 + i16::from(year);
    Date::new(year, month as i8, day as i8).is_ok()
}

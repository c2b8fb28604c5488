ghost use Rattle.std.specs.Prelude.{◌≡◌, [], length, MatchBool, MatchOption};
ghost use Rattle.datapoints.specs.declared.dpt.Dpt.TheVariants.{Time};
ghost use Rattle.datapoints.specs.Values.{HasValue, HasNoText, IsTextOfNone};

use crate::number_texts::read_two_digits;
use crate::{ValueOctets, ValueText};

/// Writes the text of a day and a time of day, if the three octets are one.
pub(crate) fn write_time(octets: &[u8], out: &mut ValueText) -> bool
    requires size { length octets.now ≡ 3 }
    requires empty { out.old ≡ [] }
    ensures { MatchBool result (HasValue Time octets.now out.new) (HasNoText Time octets.now) }
{
    let (day, hour) = (octets[0] / 32, octets[0] % 32);
    let (minute, second) = (octets[1], octets[2]);
    if hour > 23 || minute > 59 || second > 59 {
        return false;
    }
    out.octet(b'0' + day);
    out.octet(b' ');
    out.two_digits(hour);
    out.octet(b':');
    out.two_digits(minute);
    out.octet(b':');
    out.two_digits(second);
    true
}

/// The octets of the day and time of day whose text this is.
pub(crate) fn octets_of_time(text: &str) -> Option<ValueOctets>
    ensures { MatchOption result (IsTextOfNone Time text.now) (λ octets. HasValue Time octets text.now) }
{
    let [day, b' ', h1, h0, b':', m1, m0, b':', s1, s0] = text.as_bytes() else {
        return None;
    };
    if *day < b'0' || *day > b'7' {
        return None;
    }
    let hour = read_two_digits(*h1, *h0)?;
    let minute = read_two_digits(*m1, *m0)?;
    let second = read_two_digits(*s1, *s0)?;
    if hour > 23 || minute > 59 || second > 59 {
        return None;
    }
    Some(ValueOctets::of(&[(*day - b'0') * 32 + hour, minute, second]))
}

ghost use Rattle.std.specs.Prelude.{◌≡◌, ◌≢◌, ◌<◌, ◌≤◌, ◌==◌, ℕ, [], length, slice_index, MatchBool, MatchOption};
ghost use Rattle.std.specs.List.{list_all};
ghost use Rattle.datapoints.specs.declared.dpt.Dpt.TheVariants.{Text14};
ghost use Rattle.datapoints.specs.Values.{is_printable, HasValue, HasNoText, IsTextOfNone};

use crate::{ValueOctets, ValueText};

const MOST_CHARACTERS: usize = 14;

/// Writes the text of characters, if the fourteen octets are some.
pub(crate) fn write_characters(octets: &[u8], out: &mut ValueText) -> bool
    requires size { length octets.now ≡ 14 }
    requires empty { out.old ≡ [] }
    ensures { MatchBool result (HasValue Text14 octets.now out.new) (HasNoText Text14 octets.now) }
{
    let (characters, filling) = octets.split_at(end_of_characters(octets));
    if !are_printable(characters) {
        return false;
    }
    if !are_zero(filling) {
        return false;
    }
    out.octet(b'"');
    out.octets(characters);
    out.octet(b'"');
    true
}

// The place of the first zero, or the end.
fn end_of_characters(octets: &[u8]) -> usize
    ensures within { result ≤ length octets.now }
    ensures before { (k : ℕ) → k < result → slice_index octets.now k ≢ 0 }
    ensures end { result < length octets.now → slice_index octets.now result ≡ 0 }
{
    octets
        .iter()
        .position(|octet| *octet == 0)
        .unwrap_or(octets.len())
}

fn are_zero(octets: &[u8]) -> bool
    ensures { result ≡ list_all (λ octet. octet == 0) octets.now }
{
    octets.iter().all(|octet| *octet == 0)
}

fn are_printable(octets: &[u8]) -> bool
    ensures { result ≡ list_all is_printable octets.now }
{
    octets.iter().all(|octet| matches!(octet, b' '..=b'~'))
}

/// The octets of the characters whose text this is.
pub(crate) fn octets_of_characters(text: &str) -> Option<ValueOctets>
    ensures { MatchOption result (IsTextOfNone Text14 text.now) (λ octets. HasValue Text14 octets text.now) }
{
    let [b'"', characters @ .., b'"'] = text.as_bytes() else {
        return None;
    };
    if characters.len() > MOST_CHARACTERS || !are_printable(characters) {
        return None;
    }
    Some(ValueOctets::filled(characters))
}

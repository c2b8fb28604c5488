ghost use Rattle.std.specs.Prelude.{◌≡◌, [], ◌∷◌, MatchBool, MatchOption};
ghost use Rattle.datapoints.specs.declared.dpt.Dpt.TheVariants.{Switch};
ghost use Rattle.datapoints.specs.Values.{HasValue, HasNoText, IsTextOfNone};

use crate::{ValueOctets, ValueText};

/// Writes `off` or `on`, if the bits are 0 or 1.
pub(crate) fn write_switch(bits: u8, out: &mut ValueText) -> bool
    requires empty { out.old ≡ [] }
    ensures { MatchBool result (HasValue Switch (bits ∷ []) out.new) (HasNoText Switch (bits ∷ [])) }
{
    match bits {
        0 => out.octets(b"off"),
        1 => out.octets(b"on"),
        _ => return false,
    }
    true
}

/// The octet of a bit whose text this is.
pub(crate) fn octet_of_switch(text: &str) -> Option<ValueOctets>
    ensures { MatchOption result (IsTextOfNone Switch text.now) (λ octets. HasValue Switch octets text.now) }
{
    match text {
        "off" => Some(ValueOctets::of(&[0])),
        "on" => Some(ValueOctets::of(&[1])),
        _ => None,
    }
}

ghost use Rattle.std.specs.Prelude.{◌≡◌, ◌⊎◌, ℕ, ◌≤◌, List, length, take, drop, MatchOption, IfSome, IfNone, IsSome};
ghost use Rattle.datapoints.specs.Values.{HasValue, IsTextOfNone};
ghost use Rattle.std.specs.Option.{option_map};
ghost use Rattle.datapoints.specs.Apdus.{apdu_for, apdu_with, Carries, IsEncoded, IsWritten};

use crate::calendar::octets_of_date;
use crate::characters::octets_of_characters;
use crate::clock::octets_of_time;
use crate::number_texts::{read_float, read_scaling, read_signed};
use crate::switch::octet_of_switch;
use crate::{Dpt, ValueOctets};
use knx_base::read_decimal;
use plain_apdu::write_apdu;

/// Writes the APDU of a write or a response that carries the value of this text to the front of `out`, and returns its
/// length. `bits` is the code of the service.
pub fn encode(dpt: Dpt, text: &str, bits: u16, out: &mut [u8; 16]) -> Option<usize>
    requires service { (bits ≡ 0x040) ⊎ (bits ≡ 0x080) }
    ensures room { IfSome result (λ count. count ≤ 16) }
    ensures written { IfSome result (λ count. IsWritten dpt text.now bits (take count out.new)) }
    ensures rest { IfSome result (λ count. drop count out.new ≡ drop count out.old) }
    ensures reads_back { IfSome result (λ count. Carries dpt (take count out.new) text.now) }
    ensures found { (octets : List ℕ) → HasValue dpt octets text.now → IsSome result }
    ensures unchanged { IfNone result (out.new ≡ out.old) }
    ensures exact { option_map (λ count. take count out.new) result ≡ apdu_for dpt text.now bits }
{
    let Some(octets) = octets_of(dpt, text) else {
        return None;
    };
    Some(write_octets(dpt, octets.bytes(), bits, out))
}

fn write_octets(dpt: Dpt, octets: &[u8], bits: u16, out: &mut [u8; 16]) -> usize
    requires service { (bits ≡ 0x040) ⊎ (bits ≡ 0x080) }
    requires switch { dpt ≡ Dpt.Switch → length octets.now ≡ 1 }
    requires room { length octets.now ≤ 14 }
    ensures room { result ≤ 16 }
    ensures written { take result out.new ≡ apdu_with dpt bits octets.now }
    ensures rest { drop result out.new ≡ drop result out.old }
{
    match dpt {
        Dpt::Switch => write_apdu(bits + u16::from(octets[0]), b"", out),
        _ => write_apdu(bits, octets, out),
    }
}

// The octets whose text this is.
fn octets_of(dpt: Dpt, text: &str) -> Option<ValueOctets>
    ensures { MatchOption result (IsTextOfNone dpt text.now) (IsEncoded dpt text.now) }
{
    match dpt {
        Dpt::Switch => octet_of_switch(text),
        Dpt::Scaling => Some(ValueOctets::of_one(read_scaling(text)?)),
        Dpt::U8 => Some(ValueOctets::of_one(read_decimal(text, u8::MAX as u64)?)),
        Dpt::U16 => Some(ValueOctets::of_two(read_decimal(text, u16::MAX as u64)?)),
        Dpt::U32 => Some(ValueOctets::of_four(read_decimal(text, u32::MAX as u64)?)),
        Dpt::I8 => Some(ValueOctets::of_one(read_signed(text, 1 << 7)?)),
        Dpt::I16 => Some(ValueOctets::of_two(read_signed(text, 1 << 15)?)),
        Dpt::I32 => Some(ValueOctets::of_four(read_signed(text, 1 << 31)?)),
        Dpt::Hundredths => Some(ValueOctets::of_two(read_float(text)?)),
        Dpt::Time => octets_of_time(text),
        Dpt::Date => octets_of_date(text),
        Dpt::Text14 => octets_of_characters(text),
    }
}

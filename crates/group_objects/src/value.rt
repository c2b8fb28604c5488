ghost use Rattle.std.specs.Prelude.{◌≡◌, ◌↔◌, ◌⊎◌, ◌<◌, ◌≤◌, true, length, IfSome, IfOk, IsNone};
ghost use Rattle.group_objects.specs.Value.{IsValue, same_form, apdu_size, bits_value, octets_value, sized_value};

use plain_apdu::BadObject;
use std::marker::Model;

// The most octets that a value has.
const MOST_OCTETS: usize = 14;

/// The value of a group object: six bits, or 1 to 14 octets. Its form is which of the two it is, and the number of its
/// octets.
///
/// A contract sees its octets, and whether they are six bits.
#[derive(Clone, Copy, Debug, PartialEq, Eq)]
pub struct Value {
    bits: bool,
    size: usize,
    store: [u8; MOST_OCTETS],
}

impl Model for Value {
    ghost use Rattle.std.specs.Prelude.{length, take};
    ghost use Rattle.group_objects.specs.Value.{ObjectValue};
    ghost use Rattle.group_objects.specs.Padded.{IsPadded, padded, take_back};

    ghost Value = { ObjectValue };

    ghost view = { λ v. record { is_bits = v.bits; octets = take v.size v.store } };

    ghost invariant = { λ v. IsPadded v.bits v.size v.store };

    ghost inverse = { λ d. record { bits = d.is_bits; size = length d.octets; store = padded d.octets } };

    ghost inverse_ok = { λ a h. take_back a h };
}

impl Value {
    /// A value of six bits, as a switch has one and a dimmer four of them. None is 64 and above.
    pub fn bits(value: u8) -> Option<Value>
        ensures value { IfSome result (λ bits. bits ≡ bits_value value) }
        ensures none { IsNone result ↔ (64 ≤ value) }
    {
        if value < 64 {
            Some(Value::of_bits(value))
        } else {
            None
        }
    }

    /// A value of octets. None is a slice of none and one of more than 14.
    pub fn octets(bytes: &[u8]) -> Option<Value>
        ensures value { IfSome result (λ octets. octets ≡ octets_value bytes.now) }
        ensures none { IsNone result ↔ ((length bytes.now ≡ 0) ⊎ (14 < length bytes.now)) }
    {
        match bytes.len() {
            1..=MOST_OCTETS => Some(Value::of_octets(bytes)),
            _ => None,
        }
    }

    fn of_bits(value: u8) -> Value
        requires { value < 64 }
        ensures { result ≡ bits_value value }
    {
        let mut store = [0; MOST_OCTETS];
        store[0] = value;
        Value {
            bits: true,
            size: 1,
            store,
        }
    }

    fn of_octets(bytes: &[u8]) -> Value
        requires some { 0 < length bytes.now }
        requires fits { length bytes.now ≤ 14 }
        ensures { result ≡ octets_value bytes.now }
    {
        let mut store = [0; MOST_OCTETS];
        store[..bytes.len()].copy_from_slice(bytes);
        Value {
            bits: false,
            size: bytes.len(),
            store,
        }
    }

    /// The octets; six bits are one octet below 64.
    pub fn as_bytes(&self) -> &[u8]
        ensures octets { result.now ≡ self.now.octets }
        ensures is_value { IsValue self.now }
    {
        &self.store[..self.size]
    }

    /// Whether it is six bits.
    pub fn is_bits(&self) -> bool
        ensures { result ≡ self.now.is_bits }
    {
        self.bits
    }

    /// Whether both are six bits, or have the same number of octets.
    pub fn has_form(&self, other: &Value) -> bool
        ensures { result ≡ same_form self.now other.now }
    {
        self.bits == other.bits && self.size == other.size
    }

    // The number of octets of an application PDU that carries a value of this form.
    fn apdu_size(&self) -> usize
        ensures size { result ≡ apdu_size self.now }
        ensures most { result ≤ 16 }
    {
        if self.bits { 2 } else { self.size + 2 }
    }

    // The value of this form that an application PDU carries.
    pub(crate) fn read_sized(&self, apdu: &[u8]) -> Result<Value, BadObject>
        requires { length apdu.now < 256 }
        ensures value { result ≡ sized_value self.now apdu.now }
        ensures form { IfOk result (λ value. same_form value self.now ≡ true) }
    {
        if apdu.len() != self.apdu_size() {
            return Err(BadObject::Size(apdu.len() as u8, self.apdu_size() as u8));
        }
        Ok(if self.bits {
            Value::of_bits(apdu[1] & 0x3f)
        } else {
            Value::of_octets(&apdu[2..])
        })
    }
}

ghost use Rattle.std.specs.Prelude.{◌≡◌, ℕ, ◌+◌, ◌^◌, ◌<◌, ◌≤◌, List, [], ◌∷◌, ◌++◌, length, take};
ghost use Rattle.std.specs.Fmt.{decimal, sign_text};
ghost use Rattle.datapoints.specs.Values.{two_digits, hundredths};

use knx_base::{put_decimal, put_octet};
use std::marker::Model;

/// The most octets that the text of a value has.
const ROOM: usize = 20;

/// The text of a value, in memory of its own. A contract sees it as its octets.
#[derive(Drop)]
pub struct ValueText {
    store: [u8; ROOM],
    len: usize,
}

impl Model for ValueText {
    ghost Value = { List ℕ };

    ghost view = { λ text. take text.len text.store };

    ghost invariant = { λ text. text.len ≤ 20 };
}

impl ValueText {
    /// An empty text.
    pub fn new() -> Self
        ensures empty { result ≡ [] }
    {
        ValueText {
            store: [0; ROOM],
            len: 0,
        }
    }

    /// The octets of the text.
    pub fn bytes(&self) -> &[u8]
        ensures octets { result.now ≡ self.now }
        ensures room { length self.now ≤ 20 }
    {
        &self.store[..self.len]
    }

    pub(crate) fn clear(&mut self)
        ensures empty { self.new ≡ [] }
    {
        self.len = 0;
    }

    pub(crate) fn octet(&mut self, octet: u8)
        requires room { length self.old + 1 ≤ 20 }
        ensures added { self.new ≡ self.old ++ octet ∷ [] }
    {
        self.len = put_octet(&mut self.store, self.len, octet);
    }

    pub(crate) fn octets(&mut self, octets: &[u8])
        requires room { length self.old + length octets.now ≤ 20 }
        ensures added { self.new ≡ self.old ++ octets.now }
    {
        let end = self.len + octets.len();
        self.store[self.len..end].copy_from_slice(octets);
        self.len = end;
    }

    // A minus, if the number is negative.
    pub(crate) fn sign(&mut self, negative: bool)
        requires room { length self.old + 1 ≤ 20 }
        ensures added { self.new ≡ self.old ++ sign_text negative }
    {
        if negative {
            self.octet(b'-');
        }
    }

    // The decimal of a number, at most ten digits.
    pub(crate) fn decimal(&mut self, number: u64)
        requires room { length self.old + 10 ≤ 20 }
        requires bound { number < 2 ^ 33 }
        ensures added { self.new ≡ self.old ++ decimal number }
        ensures short { length self.new ≤ length self.old + 10 }
    {
        self.len = put_decimal(&mut self.store, self.len, number);
    }

    pub(crate) fn two_digits(&mut self, number: u8)
        requires room { length self.old + 2 ≤ 20 }
        requires bound { number < 100 }
        ensures added { self.new ≡ self.old ++ two_digits number }
    {
        self.octets(&[b'0' + number / 10, b'0' + number % 10]);
    }

    // So many hundredths, as `12.05`.
    pub(crate) fn hundredths(&mut self, number: u64)
        requires room { length self.old + 13 ≤ 20 }
        requires bound { number < 2 ^ 33 }
        ensures added { self.new ≡ self.old ++ hundredths number }
    {
        self.decimal(number / 100);
        self.octet(b'.');
        self.two_digits((number % 100) as u8);
    }
}

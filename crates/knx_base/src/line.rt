ghost use Rattle.std.specs.Prelude.{◌≡◌, ℕ, ◌+◌, ◌*◌, ◌≤◌, ◌<◌, List, [], ◌∷◌, ◌++◌, length, take};
ghost use Rattle.std.specs.Fmt.{decimal};
ghost use Rattle.hex.specs.Hex.{encode_lower};
ghost use Rattle.knx_base.specs.Address.{individual_text, group_text};

use crate::decimal::{put_decimal, put_octet};
use crate::{GroupAddr, IndAddr};
use std::marker::Model;

/// The most octets of a line that is written.
const ROOM: usize = 1024;

/// A line of a report while it is put together, in memory of its own. A contract sees it as its octets.
#[derive(Drop)]
pub struct LineBuf {
    store: [u8; ROOM],
    len: usize,
}

impl Model for LineBuf {
    ghost Value = { List ℕ };

    ghost view = { λ line. take line.len line.store };

    ghost invariant = { λ line. line.len ≤ 1024 };
}

impl LineBuf {
    /// An empty line.
    pub fn new() -> LineBuf
        ensures empty { result ≡ [] }
    {
        LineBuf {
            store: [0; ROOM],
            len: 0,
        }
    }

    /// What was written so far.
    pub fn bytes(&self) -> &[u8]
        ensures octets { result.now ≡ self.now }
    {
        &self.store[..self.len]
    }

    /// Adds one octet.
    pub fn octet(&mut self, octet: u8)
        requires room { length self.old + 1 ≤ 1024 }
        ensures added { self.new ≡ self.old ++ octet ∷ [] }
    {
        self.len = put_octet(&mut self.store, self.len, octet);
    }

    /// Adds octets as they are.
    pub fn octets(&mut self, octets: &[u8])
        requires room { length self.old + length octets.now ≤ 1024 }
        ensures added { self.new ≡ self.old ++ octets.now }
    {
        let end = self.len + octets.len();
        self.store[self.len..end].copy_from_slice(octets);
        self.len = end;
    }

    /// Adds a text.
    pub fn text(&mut self, text: &str)
        requires room { length self.old + length text.now ≤ 1024 }
        ensures added { self.new ≡ self.old ++ text.now }
    {
        self.octets(text.as_bytes());
    }

    /// Adds the decimal of a number, at most 20 digits.
    pub fn decimal(&mut self, number: u64)
        requires room { length self.old + 20 ≤ 1024 }
        ensures added { self.new ≡ self.old ++ decimal number }
        ensures short { length self.new ≤ length self.old + 20 }
    {
        self.len = put_decimal(&mut self.store, self.len, number);
    }

    /// Adds the text of an individual address, as `1.1.7`.
    pub fn individual(&mut self, address: IndAddr)
        requires room { length self.old + 12 ≤ 1024 }
        ensures added { self.new ≡ self.old ++ individual_text address.0 }
        ensures short { length self.new ≤ length self.old + 12 }
    {
        let mut text = [0; 12];
        let count = address.write_text(&mut text);
        self.octets(&text[..count]);
    }

    /// Adds the text of a group address, as `1/2/3`.
    pub fn group(&mut self, address: GroupAddr)
        requires room { length self.old + 12 ≤ 1024 }
        ensures added { self.new ≡ self.old ++ group_text address.0 }
        ensures short { length self.new ≤ length self.old + 12 }
    {
        let mut text = [0; 12];
        let count = address.write_text(&mut text);
        self.octets(&text[..count]);
    }

    /// Adds octets in hexadecimal, two digits each, in lower case.
    pub fn hex(&mut self, octets: &[u8])
        requires room { length self.old + 2 * length octets.now ≤ 1024 }
        ensures added { self.new ≡ self.old ++ encode_lower octets.now }
        ensures length { length self.new ≡ length self.old + 2 * length octets.now }
    {
        let end = self.len + 2 * octets.len();
        let _ = hex::encode_to_slice(octets, &mut self.store[self.len..end]);
        self.len = end;
    }
}

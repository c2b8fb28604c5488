ghost use Rattle.std.specs.Prelude.{◌≡◌, ℕ, ◌≤◌, List, [], length, take, IsTrue, Some, Ok};
ghost use Rattle.hex.specs.Hex.{decode_of};
ghost use Rattle.frame_file.specs.Records.{record_of, record_of_digits, said_by};

use knx_base::Cause;
use std::marker::Model;
use text_lines::{MOST_OCTETS, judge_line};

// The most octets that an element of a log writes; a line writes fewer.
const ROOM: usize = 1024;

/// The octets of one record. A contract sees the octets alone.
#[derive(Drop)]
pub(crate) struct Octets {
    store: [u8; ROOM],
    len: usize,
}

impl Model for Octets {
    ghost Value = { List ℕ };

    ghost view = { λ o. take o.len o.store };

    ghost invariant = { λ o. o.len ≤ 1024 };
}

impl Octets {
    pub(crate) fn new() -> Octets
        ensures empty { result ≡ [] }
    {
        Octets {
            store: [0; ROOM],
            len: 0,
        }
    }

    pub(crate) fn bytes(&self) -> &[u8]
        ensures octets { result.now ≡ self.now }
    {
        &self.store[..self.len]
    }

    /// Takes these octets.
    pub(crate) fn set(&mut self, octets: &[u8])
        requires room { length octets.now ≤ 1024 }
        ensures octets { self.new ≡ octets.now }
    {
        self.len = octets.len();
        self.store[..self.len].copy_from_slice(octets);
    }

    // Takes the octets that these digits write in hexadecimal.
    fn decode(&mut self, digits: &[u8]) -> Result<bool, Cause>
        requires short { length digits.now ≤ 1024 }
        ensures decoded { record_of_digits (decode_of digits.now) ≡ said_by result self.new }
    {
        self.len = digits.len() / 2;
        match hex::decode_to_slice(digits, &mut self.store[..self.len]) {
            Ok(()) => Ok(true),
            Err(_) => Err(Cause::Digits),
        }
    }

    // Takes the octets of a line that is digits from its first octet to its last. The answer is whether it is one.
    fn take_digits(&mut self, line: &[u8]) -> bool
        ensures digits { IsTrue result → record_of line.now ≡ Ok (Some self.new) }
    {
        if line.is_empty() || line.len() > MOST_OCTETS {
            return false;
        }
        matches!(self.decode(line), Ok(true))
    }

    /// Takes the octets of the record that a line says. The answer is whether it says one.
    pub(crate) fn take_line(&mut self, line: &[u8]) -> Result<bool, Cause>
        ensures line { record_of line.now ≡ said_by result self.new }
    {
        // Almost all lines are digits alone. Such a line is one word, so it is not judged before.
        if self.take_digits(line) {
            return Ok(true);
        }
        let mut words = match judge_line(line) {
            Ok(Some(words)) => words,
            Ok(None) => return Ok(false),
            Err(cause) => return Err(cause),
        };
        let (Some(word), None) = (words.next(), words.next()) else {
            return Err(Cause::Words);
        };
        self.decode(word.as_bytes())
    }
}

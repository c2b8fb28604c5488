ghost use Rattle.std.specs.Prelude.{◌≡◌, ℕ, ◌+◌, ◌-◌, ◌^◌, ◌<◌, length, min, None, Ok};
ghost use Rattle.knx_base.specs.Faults.{HasCause};
ghost use Rattle.knx_base.specs.Sink.{TakesPiece};

use crate::{Failed, Sink};
use std::marker::Model;

/// A sink that keeps nothing of what it takes but how many octets there were. No write fails: it takes each piece
/// whole, tells no octets, and counts no fault.
///
/// A contract sees it as its number of octets, which stands still at its type's last value.
#[derive(Drop)]
pub struct CountSink {
    count: u128,
}

impl Model for CountSink {
    ghost Value = { ℕ };

    ghost view = { λ s. s.count };
}

impl CountSink {
    /// A sink that has taken nothing.
    pub fn new() -> CountSink
        ensures none { result ≡ 0 }
    {
        CountSink { count: 0 }
    }

    /// How many octets were taken so far, or the type's last value where there were more.
    pub fn count(&self) -> u128
        ensures count { result ≡ self.now }
    {
        self.count
    }
}

impl Sink for CountSink {
    ghost octets = { λ _. None };

    ghost faults = { λ _. 0 };

    fn write(&mut self, bytes: &[u8]) -> Result<usize, Failed>
        requires not_empty { 0 < length bytes.now }
        ensures taken { TakesPiece None None result bytes.now }
        ensures cause { HasCause 0 0 result }
        ensures whole { result ≡ Ok (length bytes.now) }
        ensures counted { self.new ≡ min (self.old + length bytes.now) (2 ^ 128 - 1) }
    {
        self.count = self.count.saturating_add(bytes.len() as u128);
        Ok(bytes.len())
    }
}

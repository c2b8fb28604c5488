ghost use Rattle.std.specs.Prelude.{◌≡◌, ℕ, ◌≤◌, Option};
ghost use Rattle.knxsec_app.specs.Words.{count_of};

use knx_base::read_decimal;
use std::marker::Model;

/// The most events of a script.
const MOST_EVENTS: u64 = 100_000;

/// How many events a script is to have, as a word writes it: from 1 to 100,000. A contract sees it as this number.
#[derive(Drop)]
pub(crate) struct EventCount {
    count: u32,
}

impl Model for EventCount {
    ghost use Rattle.std.specs.Prelude.{ℕ, ◌≤◌};

    ghost Value = { ℕ };

    ghost view = { λ c. c.count };

    ghost invariant = { λ c. (1 ≤ c.count) × (c.count ≤ 100000) };
}

impl EventCount {
    pub(crate) fn read(word: &str) -> Option<EventCount>
        ensures count { result ≡ count_of word.now }
    {
        match read_decimal(word, MOST_EVENTS) {
            Some(0) | None => None,
            Some(count) => Some(EventCount {
                count: count as u32,
            }),
        }
    }

    pub(crate) fn get(&self) -> u32
        ensures count { result ≡ self.now }
        ensures some { 1 ≤ result }
        ensures most { result ≤ 100000 }
    {
        self.count
    }
}

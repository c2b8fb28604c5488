ghost use Rattle.std.specs.Prelude.{◌≡◌, ℕ, ◌+◌, ◌≤◌, List, [], ◌++◌, length, take};
ghost use Rattle.datapoints.specs.Shown.{shown_value};

use crate::{Dpt, ValueText, decode};
use std::marker::Model;

/// The most octets that are shown: a text, and what stands before it.
const ROOM: usize = 23;

/// What a line of a report shows behind an APDU, in memory of its own. A contract sees it as its octets.
#[derive(Drop)]
pub struct ShownValue {
    store: [u8; ROOM],
    len: usize,
}

impl Model for ShownValue {
    ghost Value = { List ℕ };

    ghost view = { λ shown. take shown.len shown.store };

    ghost invariant = { λ shown. shown.len ≤ 23 };
}

impl ShownValue {
    /// Nothing.
    pub fn nothing() -> ShownValue
        ensures empty { result ≡ [] }
    {
        ShownValue {
            store: [0; ROOM],
            len: 0,
        }
    }

    /// The value of this type that an APDU carries, as ` = on`, or ` = bad-value`.
    #[tactic(auto, unfolding(crate::specs::Shown::shown_value))]
    pub fn of(dpt: Dpt, apdu: &[u8]) -> ShownValue
        ensures shown { result ≡ shown_value dpt apdu.now }
    {
        let mut text = ValueText::new();
        let mut shown = ShownValue::nothing();
        let fits = apdu.len() == usize::from(dpt.apdu_size());
        if fits && decode(dpt, apdu, &mut text).is_ok() {
            shown.add(b" = ");
            shown.add(text.bytes());
        } else {
            shown.add(b" = bad-value");
        }
        shown
    }

    fn add(&mut self, octets: &[u8])
        requires room { length self.old + length octets.now ≤ 23 }
        ensures added { self.new ≡ self.old ++ octets.now }
    {
        let end = self.len + octets.len();
        self.store[self.len..end].copy_from_slice(octets);
        self.len = end;
    }

    /// What is shown.
    pub fn bytes(&self) -> &[u8]
        ensures octets { result.now ≡ self.now }
        ensures room { length self.now ≤ 23 }
    {
        &self.store[..self.len]
    }
}

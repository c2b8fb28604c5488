ghost use Rattle.std.specs.Prelude.{◌≡◌, ℕ, ◌≤◌, List, [], length, take};

use std::marker::Model;

// Up to `ROOM` octets, a copyable value. A contract sees them as these octets.
#[derive(Clone, Copy, Debug, PartialEq, Eq)]
pub(crate) struct Octets<const ROOM: usize> {
    store: [u8; ROOM],
    len: usize,
}

impl<const ROOM: usize> Model for Octets<ROOM> {
    ghost use Rattle.std.specs.Prelude.{ℕ, List, length, take};
    ghost use Rattle.script_text.specs.Padded.{IsPadded, padded, take_back};

    ghost Value = { List ℕ };

    ghost view = { λ o. take o.len o.store };

    ghost invariant = { λ o. IsPadded ROOM o.len o.store };

    ghost inverse = { λ d. record { store = padded ROOM d; len = length d } };

    ghost inverse_ok = { λ a h. take_back ROOM a h };
}

impl<const ROOM: usize> Octets<ROOM> {
    pub(crate) fn new(bytes: &[u8]) -> Self
        requires fits { length bytes.now ≤ ROOM }
        ensures octets { result ≡ bytes.now }
    {
        let mut store = [0; ROOM];
        store[..bytes.len()].copy_from_slice(bytes);
        Octets {
            store,
            len: bytes.len(),
        }
    }

    pub(crate) fn bytes(&self) -> &[u8]
        ensures octets { result.now ≡ self.now }
        ensures room { length self.now ≤ ROOM }
    {
        &self.store[..self.len]
    }
}

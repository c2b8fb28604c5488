ghost use Rattle.std.specs.Prelude.{◌≡◌, ℕ, ◌-◌, ◌^◌, ◌<◌, ◌≤◌, List, ◌++◌, length, take, replicate};
ghost use Rattle.std.specs.Int.{to_be_bytes, w8, w16, w32};

use std::marker::Model;

const ROOM: usize = 14;

/// The octets of a value, in memory of their own. A contract sees these octets.
#[derive(Drop)]
pub(crate) struct ValueOctets {
    store: [u8; ROOM],
    len: usize,
}

impl Model for ValueOctets {
    ghost Value = { List ℕ };

    ghost view = { λ octets. take octets.len octets.store };

    ghost invariant = { λ octets. octets.len ≤ 14 };
}

impl ValueOctets {
    pub(crate) fn of(octets: &[u8]) -> ValueOctets
        requires room { length octets.now ≤ 14 }
        ensures { result ≡ octets.now }
    {
        let mut store = [0; ROOM];
        store[..octets.len()].copy_from_slice(octets);
        ValueOctets {
            store,
            len: octets.len(),
        }
    }

    // The octets, and zeros up to fourteen.
    pub(crate) fn filled(octets: &[u8]) -> ValueOctets
        requires room { length octets.now ≤ 14 }
        ensures { result ≡ octets.now ++ replicate (14 - length octets.now) 0 }
    {
        let mut store = [0; ROOM];
        store[..octets.len()].copy_from_slice(octets);
        ValueOctets { store, len: ROOM }
    }

    pub(crate) fn of_one(number: u64) -> ValueOctets
        requires bound { number < 2 ^ 8 }
        ensures { result ≡ to_be_bytes w8 number }
    {
        ValueOctets::of(&[number as u8])
    }

    pub(crate) fn of_two(number: u64) -> ValueOctets
        requires bound { number < 2 ^ 16 }
        ensures { result ≡ to_be_bytes w16 number }
    {
        ValueOctets::of(&(number as u16).to_be_bytes())
    }

    pub(crate) fn of_four(number: u64) -> ValueOctets
        requires bound { number < 2 ^ 32 }
        ensures { result ≡ to_be_bytes w32 number }
    {
        ValueOctets::of(&(number as u32).to_be_bytes())
    }

    pub(crate) fn bytes(&self) -> &[u8]
        ensures octets { result.now ≡ self.now }
        ensures room { length self.now ≤ 14 }
    {
        &self.store[..self.len]
    }
}

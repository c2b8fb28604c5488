// A key with its round keys, and the cipher of one block.

ghost use Rattle.std.specs.Prelude.{◌≡◌, List, ℕ};
ghost use Rattle.aes_modes.specs.Cipher.{IsBlock, cipher};

use crate::rounds::{
    Columns, add_key, last_round, load, next_round_key, round, store, undo_last_round, undo_round,
};
use crate::tables::ROUND_CONSTANTS;
use std::marker::Model;

/// An AES-128 key, which keeps its round keys. Contracts see it as its sixteen octets.
#[derive(Clone, Copy)]
pub struct Key128 {
    round_keys: [Columns; 11],
}

impl Model for Key128 {
    ghost use Rattle.std.specs.Prelude.{◌≡◌, List, [], ℕ, slice_index_or};
    ghost use Rattle.std.proofs.Common.{sym};
    ghost use Rattle.aes_modes.specs.Words.{block_of, schedule_of};

    ghost Value = { List ℕ };

    ghost view = { λ k. block_of (slice_index_or k.round_keys 0 []) };

    ghost invariant = { λ k. k.round_keys ≡ schedule_of (block_of (slice_index_or k.round_keys 0 [])) };

    ghost inverse = { λ key. record { round_keys = schedule_of key } };

    ghost inverse_ok = { λ k h i. record { round_keys = sym h i } };
}

impl Key128 {
    /// The key of sixteen octets, expanded (FIPS 197, 5.2).
    pub fn new(key: [u8; 16]) -> Key128
        ensures { result ≡ key }
    {
        let first = load(&key);
        let mut round_keys = [first; 11];
        'expansion: for n in 0..10 {
            let next = next_round_key(round_keys[n], ROUND_CONSTANTS[n]);
            round_keys[n + 1] = next;
        }
        Key128 { round_keys }
    }

    /// Replaces the block by its cipher (FIPS 197, 5.1).
    pub fn encrypt_block(&self, block: &mut [u8; 16])
        ensures { block.new ≡ cipher self.now block.old }
    {
        let mut state = add_key(load(block), self.round_keys[0]);
        'rounds: for n in 1..10 {
            let next = round(state, self.round_keys[n]);
            state = next;
        }
        *block = store(last_round(state, self.round_keys[10]));
    }

    /// Replaces the block by the one block whose cipher it is (FIPS 197, 5.3).
    pub fn decrypt_block(&self, block: &mut [u8; 16])
        ensures encrypts_back { cipher self.now block.new ≡ block.old }
        ensures only { (plain : List ℕ) → IsBlock plain → cipher self.now plain ≡ block.old → block.new ≡ plain }
    {
        let mut state = undo_last_round(load(block), self.round_keys[10]);
        'rounds: for n in 1..10 {
            let before = undo_round(state, self.round_keys[10 - n]);
            state = before;
        }
        *block = store(add_key(state, self.round_keys[0]));
    }
}

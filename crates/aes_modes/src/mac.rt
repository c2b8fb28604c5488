// CBC-MAC over octets that come in pieces.

ghost use Rattle.std.specs.Prelude.{◌≡◌, List, [], ◌∷◌, ◌++◌, ℕ, ◌+◌, ◌%◌, ◌<◌, length};
ghost use Rattle.std.specs.List.{flat_map};
ghost use Rattle.aes_modes.specs.Modes.{WasFed, mac_of, zero_block};

use crate::blocks::{BLOCK_LEN, block_at, xor_block};
use crate::key::Key128;
use std::marker::Model;

/// A CBC-MAC under a key, which is fed piece by piece. It keeps no octets of whole blocks, so what it
/// was fed is no function of it: contracts say of it what `WasFed` says.
#[derive(Drop)]
pub struct CbcMac {
    key: Key128,
    // The XOR of the last cipher block and of what was fed since.
    block: [u8; 16],
    used: usize,
}

impl Model for CbcMac {
    ghost use Rattle.std.specs.Prelude.{◌<◌};
    ghost use Rattle.aes_modes.specs.Modes.{MacState};

    ghost Value = { MacState };

    ghost view = { λ mac. record { key = mac.key; block = mac.block; used = mac.used } };

    ghost invariant = { λ mac. mac.used < 16 };
}

impl CbcMac {
    /// The CBC-MAC under this key, fed nothing yet.
    pub fn new(key: Key128) -> CbcMac
        ensures key { result.key ≡ key }
        ensures nothing_fed { WasFed result [] }
    {
        CbcMac {
            key,
            block: [0; 16],
            used: 0,
        }
    }

    /// Feeds it these octets, after those that it was fed before.
    pub fn feed(&mut self, bytes: &[u8])
        ensures key { self.new.key ≡ self.old.key }
        ensures fed { (fed : List ℕ) → WasFed self.old fed → WasFed self.new (fed ++ bytes.now) }
    {
        let head = ((BLOCK_LEN - self.used) % BLOCK_LEN).min(bytes.len());
        let whole = (bytes.len() - head) / BLOCK_LEN;
        self.feed_octets(&bytes[..head]);
        self.feed_blocks(&bytes[head..head + BLOCK_LEN * whole]);
        self.feed_octets(&bytes[head + BLOCK_LEN * whole..]);
    }

    fn feed_octets(&mut self, bytes: &[u8])
        ensures key { self.new.key ≡ self.old.key }
        ensures used { self.new.used % 16 ≡ (self.old.used + length bytes.now) % 16 }
        ensures fed { (fed : List ℕ) → WasFed self.old fed → WasFed self.new (fed ++ bytes.now) }
    {
        'octets: for octet in bytes {
            self.feed_octet(*octet);
        }
    }

    fn feed_blocks(&mut self, blocks: &[u8])
        requires whole { length blocks.now % 16 ≡ 0 }
        requires between { 0 < length blocks.now → self.old.used % 16 ≡ 0 }
        ensures key { self.new.key ≡ self.old.key }
        ensures fed { (fed : List ℕ) → WasFed self.old fed → WasFed self.new (fed ++ blocks.now) }
    {
        'each: for n in 0..blocks.len() / BLOCK_LEN {
            self.feed_block(&block_at(blocks, n));
        }
    }

    fn feed_block(&mut self, block: &[u8; 16])
        requires { self.old.used % 16 ≡ 0 }
        ensures key { self.new.key ≡ self.old.key }
        ensures used { self.new.used % 16 ≡ 0 }
        ensures fed { (fed : List ℕ) → WasFed self.old fed → WasFed self.new (fed ++ block.now) }
    {
        xor_block(&mut self.block, block);
        self.key.encrypt_block(&mut self.block);
    }

    fn feed_octet(&mut self, octet: u8)
        ensures key { self.new.key ≡ self.old.key }
        ensures used { self.new.used % 16 ≡ (self.old.used + 1) % 16 }
        ensures fed { (fed : List ℕ) → WasFed self.old fed → WasFed self.new (fed ++ octet ∷ []) }
    {
        self.block[self.used] ^= octet;
        self.used += 1;
        if self.used == BLOCK_LEN {
            self.key.encrypt_block(&mut self.block);
            self.used = 0;
        }
    }

    /// The last block of CBC from sixteen zeros over all that was fed, filled with zeros to whole
    /// blocks. Where nothing was fed it is sixteen zeros.
    pub fn finish(self) -> [u8; 16]
        ensures mac { (fed : List ℕ) → WasFed self fed → result ≡ mac_of self.key fed }
        ensures nothing_fed { WasFed self [] → result ≡ zero_block }
    {
        let mut block = self.block;
        if self.used > 0 {
            self.key.encrypt_block(&mut block);
        }
        block
    }
}

/// The CBC-MAC of the pieces, one after the other. It depends on their octets alone: however they
/// are cut, it is the same.
pub fn mac_of_pieces(key: &Key128, pieces: &[&[u8]]) -> [u8; 16]
    ensures { result ≡ mac_of key.now (flat_map (λ piece. piece.now) pieces.now) }
{
    let mut mac = CbcMac::new(*key);
    'each: for piece in pieces {
        mac.feed(piece);
    }
    mac.finish()
}

ghost use Rattle.std.specs.Prelude.{◌≡◌, ◌+◌, ◌-◌, ◌<◌, ◌≤◌, List, ℕ, ◌++◌, length, replicate};
ghost use Rattle.sha2.specs.Hashers.{Holds256};
ghost use Rattle.sha2.specs.Sha256.{sha256};
ghost use Rattle.kdf_sha.specs.Hmac.{hmac_of, key_block};
ghost use Rattle.kdf_sha.specs.Keyed.{IsKeyed};

use crate::xor::xored;
use sha2::{Digest, Sha256};

const BLOCK_OCTETS: usize = 64;

const INNER_PAD: u8 = 0x36;

const OUTER_PAD: u8 = 0x5C;

/// The code of HMAC-SHA-256 (RFC 2104) of these octets under this key, which may have any length.
pub fn hmac256(key: &[u8], octets: &[u8]) -> [u8; 32]
    ensures code { result ≡ hmac_of key.now octets.now }
{
    Keyed::new(key).code(octets, &[])
}

/// The hash states after the two padded keys, from which each code of the key goes on. So a code of a short text costs
/// two compressions, and not four.
#[derive(Drop)]
pub(crate) struct Keyed {
    inner: Sha256,
    outer: Sha256,
}

impl Keyed {
    pub(crate) fn new(key: &[u8]) -> Keyed
        ensures keyed { IsKeyed result key.now }
    {
        let block = key_block(key);
        Keyed {
            inner: Sha256::new_with_prefix(xored(&block, &[INNER_PAD; BLOCK_OCTETS]).as_slice()),
            outer: Sha256::new_with_prefix(xored(&block, &[OUTER_PAD; BLOCK_OCTETS]).as_slice()),
        }
    }

    /// The code of a text in two parts.
    pub(crate) fn code(&self, front: &[u8], back: &[u8]) -> [u8; 32]
        ensures code { (key : List ℕ) → IsKeyed self.now key → result ≡ hmac_of key (front.now ++ back.now) }
    {
        let inner = digest_from(&self.inner, front, back);
        digest_from(&self.outer, &inner, &[])
    }
}

// The digest of what the state holds and a text in two parts.
fn digest_from(state: &Sha256, front: &[u8], back: &[u8]) -> [u8; 32]
    ensures digest { (begun : List ℕ) → Holds256 state.now begun → result ≡ sha256 (begun ++ (front.now ++ back.now)) }
{
    let mut hasher = copy_of(state);
    hasher.update(front);
    hasher.update(back);
    hasher.finalize()
}

fn copy_of(state: &Sha256) -> Sha256
    ensures copy { result ≡ state.now }
{
    state.clone().unwrap()
}

// The key as one block, hashed where it is longer.
fn key_block(key: &[u8]) -> [u8; BLOCK_OCTETS]
    ensures block { result ≡ key_block key.now }
{
    if key.len() > BLOCK_OCTETS {
        filled(&Sha256::digest(key))
    } else {
        filled(key)
    }
}

fn filled(key: &[u8]) -> [u8; BLOCK_OCTETS]
    requires fits { length key.now ≤ 64 }
    ensures filled { result ≡ key.now ++ replicate (64 - length key.now) 0 }
{
    let mut block = [0; BLOCK_OCTETS];
    let (front, _) = block.split_at_mut(key.len());
    front.copy_from_slice(key);
    block
}

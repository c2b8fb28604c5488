ghost use Rattle.std.specs.Prelude.{◌≡◌, Some, length};
ghost use Rattle.aes_modes.specs.Cipher.{IsBlock};
ghost use Rattle.sha2.specs.Sha256.{sha256};
ghost use Rattle.keyring_reader.specs.Keys.{base64_of, stored_block, password_key, short_hash, unwrapped, key_named};

use aes_modes::{Key128, cbc_decrypt};
use base64::engine::general_purpose::STANDARD;
use kdf_sha::pbkdf2_256;
use sha2::{Digest, Sha256};

const SALT: &[u8] = b"1.keyring.ets.knx.org";

const ROUNDS: u32 = 65_536;

/// The key of a password.
#[tactic(auto, unfolding(crate::specs::Keys::password_key))]
pub(crate) fn password_key(password: &[u8]) -> [u8; 16]
    ensures { result ≡ password_key password.now }
{
    let mut key = [0; 16];
    pbkdf2_256(password, SALT, ROUNDS, &mut key);
    key
}

/// The base64 of a block.
pub(crate) fn base64_of(block: &[u8; 16]) -> [u8; 24]
    ensures { result ≡ base64_of block.now }
{
    let mut text = [0; 24];
    let _length = STANDARD.encode_slice(block, &mut text);
    text
}

/// The sixteen octets whose base64 the text is.
pub(crate) fn stored_block(text: &str) -> Option<[u8; 16]>
    ensures { result ≡ stored_block text.now }
{
    let mut block = [0; 16];
    let Ok(length) = STANDARD.decode_slice(text.as_bytes(), &mut block) else {
        return None;
    };
    if length == 16 { Some(block) } else { None }
}

/// Sixteen octets as a block.
pub(crate) fn block_from(octets: &[u8]) -> [u8; 16]
    requires { length octets.now ≡ 16 }
    ensures copy { result ≡ octets.now }
    ensures block { IsBlock result }
{
    let mut block = [0; 16];
    block.copy_from_slice(octets);
    block
}

/// The first sixteen octets of the hash of these.
#[tactic(auto, unfolding(crate::specs::Keys::short_hash))]
pub(crate) fn short_hash(octets: &[u8]) -> [u8; 16]
    ensures { result ≡ short_hash octets.now }
{
    block_from(&Sha256::digest(octets)[..16])
}

/// What keys are wrapped under.
#[derive(Drop)]
pub(crate) struct Wrapping {
    pub(crate) key: Key128,
    pub(crate) vector: [u8; 16],
}

impl Wrapping {
    // The block whose CBC is the wrapped one.
    fn unwrap(&self, wrapped: &[u8; 16]) -> [u8; 16]
        ensures { unwrapped self.now.key self.now.vector wrapped.now ≡ Some result }
    {
        let mut plain = *wrapped;
        cbc_decrypt(&self.key, &self.vector, &mut plain);
        block_from(&plain)
    }

    /// The key that is stored as this text.
    pub(crate) fn read_key(&self, text: &str) -> Option<[u8; 16]>
        ensures { result ≡ key_named self.now text.now }
    {
        Some(self.unwrap(&stored_block(text)?))
    }
}

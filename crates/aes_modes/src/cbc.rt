// CBC (SP 800-38A, 6.2), in place on whole blocks.

ghost use Rattle.std.specs.Prelude.{◌≡◌, List, ℕ, ◌%◌, length};
ghost use Rattle.aes_modes.specs.Cipher.{AreOctets};
ghost use Rattle.aes_modes.specs.Modes.{cbc_of};

use crate::blocks::{BLOCK_LEN, block_at, put_block, xor_block};
use crate::key::Key128;

/// Replaces the octets, whole blocks, by their CBC under the key and the initialization vector
/// (SP 800-38A, 6.2).
pub fn cbc_encrypt(key: &Key128, iv: &[u8; 16], octets: &mut [u8])
    requires { length octets.old % 16 ≡ 0 }
    ensures { octets.new ≡ cbc_of key.now iv.now octets.old }
{
    let mut block = *iv;
    'each: for n in 0..octets.len() / BLOCK_LEN {
        xor_block(&mut block, &block_at(octets, n));
        key.encrypt_block(&mut block);
        put_block(octets, n, &block);
    }
}

/// Replaces the octets, whole blocks, by the one list of octets whose CBC they are under the key and
/// the initialization vector (SP 800-38A, 6.2).
pub fn cbc_decrypt(key: &Key128, iv: &[u8; 16], octets: &mut [u8])
    requires { length octets.old % 16 ≡ 0 }
    ensures encrypts_back { cbc_of key.now iv.now octets.new ≡ octets.old }
    ensures only { (plain : List ℕ) → length plain ≡ length octets.old → AreOctets plain
        → cbc_of key.now iv.now plain ≡ octets.old → octets.new ≡ plain }
{
    let mut before = *iv;
    'each: for n in 0..octets.len() / BLOCK_LEN {
        let cipher = block_at(octets, n);
        let mut plain = cipher;
        key.decrypt_block(&mut plain);
        xor_block(&mut plain, &before);
        put_block(octets, n, &plain);
        before = cipher;
    }
}

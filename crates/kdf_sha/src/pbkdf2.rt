ghost use Rattle.std.specs.Prelude.{◌≡◌, ◌+◌, ◌-◌, ◌*◌, ◌<◌, ◌≤◌, ◌^◌, ◌++◌, ℕ, List, length, take, drop};
ghost use Rattle.kdf_sha.specs.Pbkdf2.{block_of, pbkdf2_of};
ghost use Rattle.kdf_sha.specs.Keyed.{IsKeyed};

use crate::hmac::Keyed;
use crate::xor::xored;

const CODE_OCTETS: usize = 32;

/// Fills `out` with the key that PBKDF2 (RFC 8018, section 5.2) derives from a password and a salt in so many rounds of
/// HMAC-SHA-256.
pub fn pbkdf2_256(password: &[u8], salt: &[u8], rounds: u32, out: &mut [u8])
    requires rounds { 1 ≤ rounds }
    requires short { length out.old ≤ 8192 }
    ensures derived { out.new ≡ pbkdf2_of password.now salt.now rounds (length out.old) }
{
    let keyed = Keyed::new(password);
    'places: for index in 0..out.len().div_ceil(CODE_OCTETS) {
        let block = derived_block(&keyed, salt, rounds, index as u32 + 1);
        put_block(out, CODE_OCTETS * index, &block);
    }
}

// The XOR sum of the codes of all rounds, the first of the salt and the block's number.
fn derived_block(keyed: &Keyed, salt: &[u8], rounds: u32, number: u32) -> [u8; CODE_OCTETS]
    requires rounds { 1 ≤ rounds }
    ensures block { (password : List ℕ) → IsKeyed keyed.now password
        → result ≡ block_of password salt.now rounds number }
{
    let mut code = keyed.code(salt, &number.to_be_bytes());
    let mut sum = code;
    'rounds: for _round in 1..rounds {
        code = keyed.code(&code, &[]);
        sum = xored(&sum, &code);
    }
    sum
}

// Writes what fits of the block from this place on.
fn put_block(out: &mut [u8], at: usize, block: &[u8; CODE_OCTETS])
    requires within { at < length out.old }
    ensures put { out.new ≡ take at out.old ++ take (length out.old - at) block.now ++ drop (at + 32) out.old }
{
    let (_, rest) = out.split_at_mut(at);
    let taken = rest.len().min(CODE_OCTETS);
    rest[..taken].copy_from_slice(&block[..taken]);
}

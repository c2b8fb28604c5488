// The counter stream (SP 800-38A, 6.5), whose counter is the last octet of a block.

ghost use Rattle.std.specs.Prelude.{◌≡◌, ℕ, ◌+◌, ◌*◌, ◌<◌, ◌≤◌, length, slice_index};
ghost use Rattle.aes_modes.specs.Octet.{◌⊕◌};
ghost use Rattle.aes_modes.specs.Modes.{with_stream};

use crate::blocks::BLOCK_LEN;
use crate::key::Key128;

/// Adds the counter stream of the key to the octets: block `n` of the stream is the cipher of
/// `ctr0` with `n` as its last octet.
pub fn ctr_apply(key: &Key128, ctr0: &[u8; 16], octets: &mut [u8])
    requires last { slice_index ctr0.now 15 ≡ 0 }
    requires short { length octets.old ≤ 4096 }
    ensures stream { octets.new ≡ with_stream key.now ctr0.now octets.old }
    ensures twice { with_stream key.now ctr0.now octets.new ≡ octets.old }
{
    let mut counter = *ctr0;
    'each: for n in 0..octets.len().div_ceil(BLOCK_LEN) {
        counter[BLOCK_LEN - 1] = n as u8;
        let mut stream = counter;
        key.encrypt_block(&mut stream);
        add_stream(octets, n, &stream);
    }
}

// Adds block `n` of the stream, as far as there are octets.
#[inline(always)]
fn add_stream(octets: &mut [u8], n: usize, stream: &[u8; 16])
    requires { 16 * n ≤ length octets.old }
    ensures block { (i : ℕ) → i < 16 → 16 * n + i < length octets.old
        → slice_index octets.new (16 * n + i) ≡ slice_index octets.old (16 * n + i) ⊕ slice_index stream.now i }
    ensures before { (i : ℕ) → i < 16 * n → slice_index octets.new i ≡ slice_index octets.old i }
    ensures after { (i : ℕ) → 16 * n + 16 ≤ i → slice_index octets.new i ≡ slice_index octets.old i }
{
    let start = BLOCK_LEN * n;
    'octets: for i in 0..(octets.len() - start).min(BLOCK_LEN) {
        octets[start + i] ^= stream[i];
    }
}

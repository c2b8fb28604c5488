// Blocks of sixteen octets, and their places in a slice.

ghost use Rattle.std.specs.Prelude.{◌≡◌, ℕ, ◌+◌, ◌*◌, ◌<◌, ◌≤◌, length, slice_index};
ghost use Rattle.aes_modes.specs.Cipher.{AreOctets, xor_blocks};
ghost use Rattle.aes_modes.specs.Modes.{block_at};

pub(crate) const BLOCK_LEN: usize = 16;

#[inline(always)]
pub(crate) fn xor_block(block: &mut [u8; 16], other: &[u8; 16])
    ensures { block.new ≡ xor_blocks block.old other.now }
{
    'octets: for i in 0..BLOCK_LEN {
        block[i] ^= other[i];
    }
}

// Block `n` of the octets.
#[inline(always)]
pub(crate) fn block_at(octets: &[u8], n: usize) -> [u8; 16]
    requires { 16 * n + 16 ≤ length octets.now }
    ensures block { result ≡ block_at octets.now n }
    ensures octets { AreOctets result }
{
    let mut block = [0; 16];
    block.copy_from_slice(&octets[BLOCK_LEN * n..BLOCK_LEN * n + BLOCK_LEN]);
    block
}

// Writes block `n` of the octets.
#[inline(always)]
pub(crate) fn put_block(octets: &mut [u8], n: usize, block: &[u8; 16])
    requires { 16 * n + 16 ≤ length octets.old }
    ensures block { (i : ℕ) → i < 16 → slice_index octets.new (16 * n + i) ≡ slice_index block.now i }
    ensures before { (i : ℕ) → i < 16 * n → slice_index octets.new i ≡ slice_index octets.old i }
    ensures after { (i : ℕ) → 16 * n + 16 ≤ i → slice_index octets.new i ≡ slice_index octets.old i }
{
    octets[BLOCK_LEN * n..BLOCK_LEN * n + BLOCK_LEN].copy_from_slice(block);
}

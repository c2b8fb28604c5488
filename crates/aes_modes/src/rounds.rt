// The rounds of AES-128 (FIPS 197, 5.1 and 5.3) on four words, one for each column of the state, with
// row 0 in the highest octet. SubBytes and MixColumns of one octet are a single look-up.

ghost use Rattle.std.specs.Prelude.{◌≡◌, ◌<◌, List, ℕ, slice_index};
ghost use Rattle.aes_modes.specs.Octet.{◌⊕◌, sub_byte};
ghost use Rattle.aes_modes.specs.Cipher.{last_round, mix_columns, mixed, next_entry, round, shift_rows, square, sub_bytes, xor_blocks};
ghost use Rattle.aes_modes.specs.Words.{block_of, columns_of, octet_of};

use crate::tables::{
    MIXED0, MIXED1, MIXED2, MIXED3, RESTORED, SUBSTITUTED, UNMIXED0, UNMIXED1, UNMIXED2, UNMIXED3,
};

// The four columns of a state or of a round key.
pub(crate) type Columns = [u32; 4];

#[inline(always)]
pub(crate) fn load(block: &[u8; 16]) -> Columns
    ensures columns { result ≡ columns_of block.now }
    ensures same { block_of result ≡ block.now }
{
    let b = *block;
    [
        u32::from_be_bytes([b[0], b[1], b[2], b[3]]),
        u32::from_be_bytes([b[4], b[5], b[6], b[7]]),
        u32::from_be_bytes([b[8], b[9], b[10], b[11]]),
        u32::from_be_bytes([b[12], b[13], b[14], b[15]]),
    ]
}

#[inline(always)]
pub(crate) fn store(s: Columns) -> [u8; 16]
    ensures { result ≡ block_of s }
{
    let [a0, a1, a2, a3] = s[0].to_be_bytes();
    let [b0, b1, b2, b3] = s[1].to_be_bytes();
    let [c0, c1, c2, c3] = s[2].to_be_bytes();
    let [d0, d1, d2, d3] = s[3].to_be_bytes();
    [
        a0, a1, a2, a3, b0, b1, b2, b3, c0, c1, c2, c3, d0, d1, d2, d3,
    ]
}

#[inline(always)]
fn octet(word: u32, row: u32) -> u32
    requires { row < 4 }
    ensures { result ≡ octet_of word row }
{
    (word >> (24 - 8 * row)) & 0xff
}

#[inline(always)]
fn column_at(table: &[u32; 256], octet: u32) -> u32
    requires { octet < 256 }
    ensures { result ≡ slice_index table.now octet }
{
    table[octet as usize]
}

#[inline(always)]
fn octet_at(table: &[u8; 256], octet: u32) -> u8
    requires { octet < 256 }
    ensures { result ≡ slice_index table.now octet }
{
    table[octet as usize]
}

#[inline(always)]
pub(crate) fn add_key(s: Columns, k: Columns) -> Columns
    ensures { block_of result ≡ xor_blocks (block_of s) (block_of k) }
{
    [s[0] ^ k[0], s[1] ^ k[1], s[2] ^ k[2], s[3] ^ k[3]]
}

// One column after SubBytes, ShiftRows and MixColumns: each row comes from its own column.
#[inline(always)]
fn mixed_column(a: u32, b: u32, c: u32, d: u32) -> u32
    ensures row0 { octet_of result 0 ≡ mixed 0 (sub_byte (octet_of a 0)) (sub_byte (octet_of b 1))
        (sub_byte (octet_of c 2)) (sub_byte (octet_of d 3)) }
    ensures row1 { octet_of result 1 ≡ mixed 1 (sub_byte (octet_of a 0)) (sub_byte (octet_of b 1))
        (sub_byte (octet_of c 2)) (sub_byte (octet_of d 3)) }
    ensures row2 { octet_of result 2 ≡ mixed 2 (sub_byte (octet_of a 0)) (sub_byte (octet_of b 1))
        (sub_byte (octet_of c 2)) (sub_byte (octet_of d 3)) }
    ensures row3 { octet_of result 3 ≡ mixed 3 (sub_byte (octet_of a 0)) (sub_byte (octet_of b 1))
        (sub_byte (octet_of c 2)) (sub_byte (octet_of d 3)) }
{
    column_at(&MIXED0, octet(a, 0))
        ^ column_at(&MIXED1, octet(b, 1))
        ^ column_at(&MIXED2, octet(c, 2))
        ^ column_at(&MIXED3, octet(d, 3))
}

// One column after SubBytes and ShiftRows.
#[inline(always)]
fn substituted_column(a: u32, b: u32, c: u32, d: u32) -> u32
    ensures row0 { octet_of result 0 ≡ sub_byte (octet_of a 0) }
    ensures row1 { octet_of result 1 ≡ sub_byte (octet_of b 1) }
    ensures row2 { octet_of result 2 ≡ sub_byte (octet_of c 2) }
    ensures row3 { octet_of result 3 ≡ sub_byte (octet_of d 3) }
{
    u32::from_be_bytes([
        octet_at(&SUBSTITUTED, octet(a, 0)),
        octet_at(&SUBSTITUTED, octet(b, 1)),
        octet_at(&SUBSTITUTED, octet(c, 2)),
        octet_at(&SUBSTITUTED, octet(d, 3)),
    ])
}

#[inline(always)]
pub(crate) fn round(s: Columns, k: Columns) -> Columns
    ensures { block_of result ≡ round (block_of s) (block_of k) }
{
    let mixed = [
        mixed_column(s[0], s[1], s[2], s[3]),
        mixed_column(s[1], s[2], s[3], s[0]),
        mixed_column(s[2], s[3], s[0], s[1]),
        mixed_column(s[3], s[0], s[1], s[2]),
    ];
    add_key(mixed, k)
}

#[inline(always)]
pub(crate) fn last_round(s: Columns, k: Columns) -> Columns
    ensures { block_of result ≡ last_round (block_of s) (block_of k) }
{
    let shifted = [
        substituted_column(s[0], s[1], s[2], s[3]),
        substituted_column(s[1], s[2], s[3], s[0]),
        substituted_column(s[2], s[3], s[0], s[1]),
        substituted_column(s[3], s[0], s[1], s[2]),
    ];
    add_key(shifted, k)
}

// InvMixColumns: the column whose product this one is (5.3.3).
#[inline(always)]
fn unmixed_column(t: u32) -> u32
    ensures row0 { mixed 0 (octet_of result 0) (octet_of result 1) (octet_of result 2) (octet_of result 3)
        ≡ octet_of t 0 }
    ensures row1 { mixed 1 (octet_of result 0) (octet_of result 1) (octet_of result 2) (octet_of result 3)
        ≡ octet_of t 1 }
    ensures row2 { mixed 2 (octet_of result 0) (octet_of result 1) (octet_of result 2) (octet_of result 3)
        ≡ octet_of t 2 }
    ensures row3 { mixed 3 (octet_of result 0) (octet_of result 1) (octet_of result 2) (octet_of result 3)
        ≡ octet_of t 3 }
{
    column_at(&UNMIXED0, octet(t, 0))
        ^ column_at(&UNMIXED1, octet(t, 1))
        ^ column_at(&UNMIXED2, octet(t, 2))
        ^ column_at(&UNMIXED3, octet(t, 3))
}

// One column before SubBytes and ShiftRows: each row goes back to its own column.
#[inline(always)]
fn restored_column(a: u32, b: u32, c: u32, d: u32) -> u32
    ensures row0 { sub_byte (octet_of result 0) ≡ octet_of a 0 }
    ensures row1 { sub_byte (octet_of result 1) ≡ octet_of b 1 }
    ensures row2 { sub_byte (octet_of result 2) ≡ octet_of c 2 }
    ensures row3 { sub_byte (octet_of result 3) ≡ octet_of d 3 }
{
    u32::from_be_bytes([
        octet_at(&RESTORED, octet(a, 0)),
        octet_at(&RESTORED, octet(b, 1)),
        octet_at(&RESTORED, octet(c, 2)),
        octet_at(&RESTORED, octet(d, 3)),
    ])
}

// The state before SubBytes and ShiftRows.
#[inline(always)]
fn restored(s: Columns) -> Columns
    ensures { shift_rows (sub_bytes (block_of result)) ≡ block_of s }
{
    [
        restored_column(s[0], s[3], s[2], s[1]),
        restored_column(s[1], s[0], s[3], s[2]),
        restored_column(s[2], s[1], s[0], s[3]),
        restored_column(s[3], s[2], s[1], s[0]),
    ]
}

// The state before MixColumns.
#[inline(always)]
fn unmixed(s: Columns) -> Columns
    ensures { mix_columns (block_of result) ≡ block_of s }
{
    [
        unmixed_column(s[0]),
        unmixed_column(s[1]),
        unmixed_column(s[2]),
        unmixed_column(s[3]),
    ]
}

// The state before the last round.
#[inline(always)]
pub(crate) fn undo_last_round(s: Columns, k: Columns) -> Columns
    ensures { last_round (block_of result) (block_of k) ≡ block_of s }
{
    restored(add_key(s, k))
}

// The state before a round.
#[inline(always)]
pub(crate) fn undo_round(s: Columns, k: Columns) -> Columns
    ensures { round (block_of result) (block_of k) ≡ block_of s }
{
    restored(unmixed(add_key(s, k)))
}

// The round key after `k` (5.2).
pub(crate) fn next_round_key(k: Columns, constant: u8) -> Columns
    ensures same { block_of result ≡ square (next_entry (block_of k) constant) }
    ensures columns { result ≡ columns_of (block_of result) }
{
    let [k0, k1, k2, k3] = k;
    let turned = k3.rotate_left(8);
    let added = substituted_column(turned, turned, turned, turned) ^ (u32::from(constant) << 24);
    let next0 = k0 ^ added;
    let next1 = k1 ^ next0;
    let next2 = k2 ^ next1;
    let next3 = k3 ^ next2;
    [next0, next1, next2, next3]
}

//! Measures the cipher: encrypts COUNT blocks one after the other under one key, each block the
//! cipher of the one before, and prints the last one in hexadecimal.
#![tactic(auto)]

ghost use Rattle.std.specs.Prelude.{◌≡◌};
ghost use Rattle.measure.specs.Repeated.{cipher_repeated};

use aes_modes::Key128;
use anyhow::{Context, Result};
use std::env;

// The key and the block of FIPS 197, appendix C.1.
const KEY: [u8; 16] = [0, 1, 2, 3, 4, 5, 6, 7, 8, 9, 10, 11, 12, 13, 14, 15];

const BLOCK: [u8; 16] = [
    0x00, 0x11, 0x22, 0x33, 0x44, 0x55, 0x66, 0x77, 0x88, 0x99, 0xaa, 0xbb, 0xcc, 0xdd, 0xee, 0xff,
];

fn encrypt_repeatedly(key: &Key128, block: &mut [u8; 16], count: u64)
    ensures { block.new ≡ cipher_repeated key.now block.old count }
{
    'each: for _ in 0..count {
        key.encrypt_block(block);
    }
}

fn main(rt: HostRuntime) -> Result<()> {
    let word = env::args(&rt)?.nth(1).context("usage: measure COUNT")?;
    let count = word.parse::<u64>().context("COUNT is a decimal number")?;
    let mut block = BLOCK;
    encrypt_repeatedly(&Key128::new(KEY), &mut block, count);
    println!(rt; "{}", hex::encode(rt.alloc(), block.as_slice())?)?;
    Ok(())
}

//! Rows of AES-128 and of GHASH's product.

use crate::words::{Hex, Untold, array_of};
use cx_aes::{Schedule, inv_sbox, sbox};
use cx_base::Blob;
use cx_gcm::Multiples;
use std::alloc::Global;

/// A key, a block and its cipher text: the block's cipher text, and the block of the cipher text.
pub fn blocks(alloc: Global, words: &[Blob]) -> Result<String, Untold> {
    let [key, plain, cipher] = words else {
        return Err(Untold::NoRow);
    };
    let schedule = Schedule::new(array_of(key)?);
    let there = schedule.encrypt(array_of(plain)?);
    let back = schedule.decrypt(array_of(cipher)?);
    let answer = format!(in alloc; "{} back {}", Hex(&there), Hex(&back))?;
    Ok(answer)
}

/// The same of four blocks at once.
pub fn four_blocks(alloc: Global, words: &[Blob]) -> Result<String, Untold> {
    let [key, plain, cipher] = words else {
        return Err(Untold::NoRow);
    };
    let schedule = Schedule::new(array_of(key)?);
    let there = schedule.encrypt_four(&four_of(plain)?);
    let back = schedule.decrypt_four(&four_of(cipher)?);
    let mut answer = String::new(alloc);
    for block in &there {
        write!(answer, "{}", Hex(block))?;
    }
    write!(answer, " back ")?;
    for block in &back {
        write!(answer, "{}", Hex(block))?;
    }
    Ok(answer)
}

fn four_of(word: &Blob) -> Result<[[u8; 16]; 4], Untold> {
    let bytes = array_of::<64>(word)?;
    let mut blocks = [[0u8; 16]; 4];
    for n in 0..4usize {
        for k in 0..16usize {
            blocks[n][k] = bytes[16 * n + k];
        }
    }
    Ok(blocks)
}

/// A byte and the one that the S-box takes it to, both ways.
pub fn substituted(alloc: Global, words: &[Blob]) -> Result<String, Untold> {
    let [from, to] = words else {
        return Err(Untold::NoRow);
    };
    let [from] = *array_of::<1>(from)?;
    let [to] = *array_of::<1>(to)?;
    let answer = format!(in alloc; "{:02x} back {:02x}", sbox(from), inv_sbox(to))?;
    Ok(answer)
}

/// A hash subkey, a block and their product.
pub fn product(alloc: Global, words: &[Blob]) -> Result<String, Untold> {
    let [subkey, block, _product] = words else {
        return Err(Untold::NoRow);
    };
    let product = Multiples::new(array_of(subkey)?).times(array_of(block)?);
    let answer = format!(in alloc; "{}", Hex(&product))?;
    Ok(answer)
}

//! Cipher block chaining, both ways.

ghost use Rattle.std.specs.Prelude.{◌≡◌, ◌%◌, IfOk, length};
ghost use Rattle.std.specs.List.{concat};
ghost use Rattle.cx_aes.specs.KeyOf.{key_of};
ghost use Rattle.cx_cbc.specs.Chain.{blocks_of, cbc, uncbc};
ghost use Rattle.cx_cbc.specs.Envelope.{initial_vector};

use cx_aes::{Schedule, add};
use std::alloc::{AllocError, Global};
use std::simd::prelude::*;

/// The initial vector of every envelope.
pub(crate) const INITIAL_VECTOR: [u8; 16] = *b"cephsageyudagreg";

// Whole blocks, each of which makes room for its cipher text.
pub(crate) fn chain_in_place(key: &Schedule, bytes: &mut [u8])
    requires { length bytes.old % 16 ≡ 0 }
    ensures sealed { bytes.new ≡ concat (cbc (key_of key.now) initial_vector (blocks_of bytes.old)) }
    ensures len { length bytes.new ≡ length bytes.old }
{
    let mut before = INITIAL_VECTOR;
    for n in 0..bytes.len() / 16 {
        let block = u8x16::from_slice(&bytes[16 * n..]).to_array();
        before = key.encrypt(&add(&block, &before));
        u8x16::from_array(before).copy_to_slice(&mut bytes[16 * n..]);
    }
}

// The blocks whose cipher texts these whole blocks are: four at a time, and then one by one.
pub(crate) fn unchained(alloc: Global, key: &Schedule, sealed: &[u8]) -> Result<Vec<u8>, AllocError>
    ensures { IfOk result (λ plain. plain.items ≡ concat (uncbc (key_of key.now) initial_vector (blocks_of sealed.now))) }
{
    let mut plain = Vec::with_capacity(alloc, sealed.len())?;
    let mut before = INITIAL_VECTOR;
    let (blocks, _rest) = sealed.as_chunks::<16>();
    let (fours, rest) = blocks.as_chunks::<4>();
    for four in fours {
        let sums = four_unchained(key, &before, four);
        plain.extend_from_slice(sums.as_flattened())?;
        before = four[3];
    }
    for block in rest {
        let sum = add(&key.decrypt(block), &before);
        plain.extend_from_slice(&sum)?;
        before = *block;
    }
    Ok(plain)
}

// The four blocks whose cipher texts these are, behind the cipher text before them.
fn four_unchained(key: &Schedule, before: &[u8; 16], sealed: &[[u8; 16]; 4]) -> [[u8; 16]; 4]
    ensures sums { result ≡ uncbc (key_of key.now) before.now sealed.now }
    ensures len { length sealed.now ≡ 4 }
{
    let inner = key.decrypt_four(sealed);
    [
        add(&inner[0], before),
        add(&inner[1], &sealed[0]),
        add(&inner[2], &sealed[1]),
        add(&inner[3], &sealed[2]),
    ]
}

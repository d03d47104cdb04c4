//! The cipher and its inverse under an expanded key (FIPS 197, 5.1 and 5.3).

ghost use Rattle.std.specs.Prelude.{◌≡◌, ℕ, List, map};
ghost use Rattle.cx_aes.specs.Cipher.{IsBlock, aes};
ghost use Rattle.cx_aes.specs.Inverse.{inverse_aes};
ghost use Rattle.cx_aes.specs.Schedule.{IsExpanded};

use crate::cipher_rounds::{first_sum, last_round, round};
use crate::expansion::{backward_keys, forward_keys, round_keys};
use crate::inverse_rounds::{inverse_round, last_inverse_round, last_sum};
use std::simd::prelude::*;

/// The round keys of a key of 16 bytes, as encryption and decryption want them. It is made once for a key, and is `Copy`, since
/// nothing in it changes.
#[derive(Clone, Copy)]
pub struct Schedule {
    forward: [[u8; 16]; 11],
    backward: [[u8; 16]; 11],
    ghost expanded: { IsExpanded forward backward },
}

impl Schedule {
    ghost use Rattle.cx_aes.specs.KeyOf.{key_of};

    /// Expands a key.
    pub fn new(key: &[u8; 16]) -> Schedule
        ensures { key_of result ≡ key.now }
    {
        let keys = round_keys(key);
        Schedule {
            forward: forward_keys(&keys),
            backward: backward_keys(&keys),
        }
    }

    /// The cipher text of a block.
    pub fn encrypt(&self, block: &[u8; 16]) -> [u8; 16]
        ensures { result ≡ aes (key_of self.now) block.now }
    {
        let mut state = first_sum(block, u8x16::from_array(self.forward[0]));
        for done in 0..9usize {
            state = round(state, u8x16::from_array(self.forward[done + 1]));
        }
        last_round(state, u8x16::from_array(self.forward[10])).to_array()
    }

    /// The cipher texts of four blocks, which take less time together.
    pub fn encrypt_four(&self, blocks: &[[u8; 16]; 4]) -> [[u8; 16]; 4]
        ensures { result ≡ map (aes (key_of self.now)) blocks.now }
    {
        let key = u8x16::from_array(self.forward[0]);
        let mut a = first_sum(&blocks[0], key);
        let mut b = first_sum(&blocks[1], key);
        let mut c = first_sum(&blocks[2], key);
        let mut d = first_sum(&blocks[3], key);
        for done in 0..9usize {
            let key = u8x16::from_array(self.forward[done + 1]);
            a = round(a, key);
            b = round(b, key);
            c = round(c, key);
            d = round(d, key);
        }
        let key = u8x16::from_array(self.forward[10]);
        [
            last_round(a, key).to_array(),
            last_round(b, key).to_array(),
            last_round(c, key).to_array(),
            last_round(d, key).to_array(),
        ]
    }

    /// The one block whose cipher text is `block`.
    pub fn decrypt(&self, block: &[u8; 16]) -> [u8; 16]
        ensures encrypts { aes (key_of self.now) result ≡ block.now }
        ensures only { (b : List ℕ) → IsBlock b → aes (key_of self.now) b ≡ block.now → b ≡ result }
        ensures value { result ≡ inverse_aes (key_of self.now) block.now }
    {
        let mut state = last_sum(block, u8x16::from_array(self.backward[10]));
        for undone in 0..9usize {
            state = inverse_round(state, u8x16::from_array(self.backward[9 - undone]));
        }
        last_inverse_round(state, u8x16::from_array(self.backward[0])).to_array()
    }

    /// The four blocks whose cipher texts these are, each as `decrypt` gives it.
    pub fn decrypt_four(&self, blocks: &[[u8; 16]; 4]) -> [[u8; 16]; 4]
        ensures { result ≡ map (inverse_aes (key_of self.now)) blocks.now }
    {
        let key = u8x16::from_array(self.backward[10]);
        let mut a = last_sum(&blocks[0], key);
        let mut b = last_sum(&blocks[1], key);
        let mut c = last_sum(&blocks[2], key);
        let mut d = last_sum(&blocks[3], key);
        for undone in 0..9usize {
            let key = u8x16::from_array(self.backward[9 - undone]);
            a = inverse_round(a, key);
            b = inverse_round(b, key);
            c = inverse_round(c, key);
            d = inverse_round(d, key);
        }
        let key = u8x16::from_array(self.backward[0]);
        [
            last_inverse_round(a, key).to_array(),
            last_inverse_round(b, key).to_array(),
            last_inverse_round(c, key).to_array(),
            last_inverse_round(d, key).to_array(),
        ]
    }
}

// Values of `T` may be sent to another thread, and shared between threads.
fn is_sendable<T: Send + Sync>() {}

// A schedule may.
fn sends_schedules() {
    is_sendable::<Schedule>();
}

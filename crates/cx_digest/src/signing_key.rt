//! A key under which several texts are signed.
ghost use Rattle.std.specs.Prelude.{◌≡◌, ℕ, List, ◌++◌, IfOk};
ghost use Rattle.cx_digest.specs.Code.{hmac, masked};
ghost use Rattle.sha2.specs.Hashers.{Holds256};
ghost use Rattle.sha2.specs.Sha256.{sha256};

use crate::message_code::{INNER, OUTER, masked};
use sha2::{Digest, Sha256};
use std::alloc::{AllocError, Global};
use std::marker::Model;

/// A key of 16 bytes, of which each code takes two blocks of SHA-256 less: those of its pads are hashed once.
#[derive(Drop)]
pub struct SigningKey {
    padded: Box<Padded>,
}

// The key, and both hashes behind their pads.
#[derive(Drop)]
struct Padded {
    key: [u8; 16],
    inner: Sha256,
    outer: Sha256,
}

impl Model for SigningKey {
    ghost use Rattle.std.specs.Prelude.{ℕ, List};
    ghost use Rattle.cx_digest.specs.Code.{masked};
    ghost use Rattle.sha2.specs.Hashers.{Holds256};

    ghost Value = { List ℕ };

    ghost view = { λ k. k.padded.value.key };

    ghost invariant = { λ k. Holds256 k.padded.value.inner (masked 0x36 k.padded.value.key) × Holds256 k.padded.value.outer (masked 0x5c k.padded.value.key) };
}

impl SigningKey {
    /// This key.
    pub fn new(alloc: Global, key: &[u8; 16]) -> Result<SigningKey, AllocError>
        ensures { IfOk result (λ made. made ≡ key.now) }
    {
        let padded = Padded {
            key: *key,
            inner: behind(INNER, key),
            outer: behind(OUTER, key),
        };
        let padded = Box::new(alloc, padded)?;
        Ok(SigningKey { padded })
    }

    /// Its bytes.
    pub fn bytes(&self) -> [u8; 16]
        ensures { result ≡ self.now }
    {
        self.padded.as_ref().key
    }

    /// The code of `text` under it.
    pub fn code(&self, text: &[u8]) -> [u8; 32]
        ensures { result ≡ hmac self.now text.now }
    {
        let Padded { inner, outer, .. } = self.padded.as_ref();
        let digest = goes_on(inner, text);
        goes_on(outer, &digest)
    }
}

// A hash behind the key with this pad.
fn behind(pad: u8, key: &[u8; 16]) -> Sha256
    ensures { Holds256 result (masked pad key.now) }
{
    let mut hash = Sha256::new();
    hash.update(&masked(pad, key));
    hash
}

// The digest of what a hash has taken and of `bytes` behind it. The hash stays as it is.
fn goes_on(hash: &Sha256, bytes: &[u8]) -> [u8; 32]
    ensures { (taken : List ℕ) → Holds256 hash.now taken → result ≡ sha256 (taken ++ bytes.now) }
{
    let Ok(mut whole) = hash.clone() else {
        unreachable!();
    };
    whole.update(bytes);
    whole.finalize()
}

// Values of `T` may be sent to another thread, and shared between threads.
fn is_sendable<T: Send + Sync>() {}

// A key may.
fn sends_keys() {
    is_sendable::<SigningKey>();
}

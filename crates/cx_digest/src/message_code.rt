//! The message code, HMAC with SHA-256.
ghost use Rattle.std.specs.Prelude.{◌≡◌, ℕ, ◌≤◌, List, [], ◌++◌, length};
ghost use Rattle.cx_digest.specs.Code.{hmac, masked};

use sha2::{Digest, Sha256};

/// The pad of the inner hash.
pub(crate) const INNER: u8 = 0x36;

/// The pad of the outer hash.
pub(crate) const OUTER: u8 = 0x5c;

/// A code under way: HMAC with SHA-256 (RFC 2104) under one key, over a text that comes in parts.
#[derive(Drop)]
pub struct Mac {
    inner: Sha256,
    outer: [u8; 64],
}

impl Mac {
    ghost use Rattle.cx_digest.specs.Code.{Takes};

    /// The code of the empty text.
    pub fn new(key: &[u8; 16]) -> Mac
        ensures { Takes result key.now [] }
    {
        Mac::under(key)
    }

    // The code of the empty text, under a key of any admitted length.
    pub(crate) fn under(key: &[u8]) -> Mac
        requires { length key.now ≤ 64 }
        ensures { Takes result key.now [] }
    {
        let mut inner = Sha256::new();
        let mask = masked(INNER, key);
        inner.update(&mask);
        let outer = masked(OUTER, key);
        Mac { inner, outer }
    }

    /// Adds `bytes` at the end of the text.
    pub fn update(&mut self, bytes: &[u8])
        ensures { (key text : List ℕ) → Takes self.old key text → Takes self.new key (text ++ bytes.now) }
    {
        self.inner.update(bytes);
    }

    /// The code of the text.
    pub fn finish(self) -> [u8; 32]
        ensures { (key text : List ℕ) → Takes self key text → result ≡ hmac key text }
    {
        let digest = self.inner.finalize();
        let mut outer = Sha256::new();
        outer.update(&self.outer);
        outer.update(&digest);
        outer.finalize()
    }
}

/// The key, filled with zeros to a block, with `pad` added to each byte.
pub(crate) fn masked(pad: u8, key: &[u8]) -> [u8; 64]
    requires { length key.now ≤ 64 }
    ensures { result ≡ masked pad key.now }
{
    let mut block = [0; 64];
    for place in 0..64usize {
        block[place] = pad ^ key.get(place).copied().unwrap_or(0);
    }
    block
}

// Values of `T` may be sent to another thread, and shared between threads.
fn is_sendable<T: Send + Sync>() {}

// A code under way may.
fn sends_codes() {
    is_sendable::<Mac>();
}

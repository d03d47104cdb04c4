//! What the ledger keeps of an entry, by which later entries are judged.

ghost use Rattle.std.specs.Prelude.{◌≡◌, ◌≤◌, slice_index, take, IfOk, true};
ghost use Rattle.cx_premises.specs.Facts.{four_at, number_in, number_of, sealed_fact, signed_fact, key_fact, draw_fact};

use crate::leaks::Leaks;
use cx_base::Blob;
use cx_steps::{DrawMark, SealMark};
use std::alloc::{AllocError, Global};
use std::hash::{Hash, Hasher};

/// What an entry of a log leaves behind.
#[derive(PartialEq, Eq, Drop)]
pub enum Fact {
    Sealed { content: Blob, key: [u8; 16] },
    Signed { content: Blob, key: [u8; 16] },
    /// A key was drawn, and not for a leaked client.
    Key([u8; 16]),
    /// A key was drawn for a leaked client.
    LeakedKey([u8; 16]),
    Challenge(u64),
    Nonce(u64),
    Cookie(u64),
}

impl Hash for Fact {
    ghost use Rattle.std.specs.Hash as fed;
    ghost use Rattle.cx_premises.specs.Facts.{number_of};
    ghost use Rattle.cx_premises.specs.Alike.{hashed_alike};

    ghost hash_input = { λ left. fed.u64 (number_of left) };

    ghost respects_eq = { hashed_alike };

    /// By its number alone, since contents are long.
    fn hash<H: Hasher>(&self, state: &mut H) {
        state.write_u64(self.number());
    }
}

impl Fact {
    /// What the sealing of this mark leaves.
    pub fn sealed(mark: SealMark) -> Fact
        ensures { result ≡ sealed_fact mark }
    {
        let SealMark {
            key,
            kind: _,
            content,
        } = mark;
        Fact::Sealed { content, key }
    }

    /// What the signing of this mark leaves.
    pub fn signed(mark: SealMark) -> Fact
        ensures { result ≡ signed_fact mark }
    {
        let SealMark {
            key,
            kind: _,
            content,
        } = mark;
        Fact::Signed { content, key }
    }

    /// What a draw leaves where these clients leaked.
    pub fn drawn(alloc: Global, leaked: &Leaks, mark: &DrawMark) -> Result<Fact, AllocError>
        ensures { IfOk result (λ fact. fact ≡ draw_fact leaked.now mark.now) }
    {
        match mark {
            DrawMark::Principal { secret, for_whom } => {
                let is_leaked = leaked.has(alloc, for_whom)?;
                Ok(Fact::of_key(is_leaked, *secret))
            }
            DrawMark::Connection { secret, for_whom } => {
                let is_leaked = leaked.has(alloc, for_whom)?;
                Ok(Fact::of_key(is_leaked, front_of(secret)))
            }
            DrawMark::Session { key, for_whom } => {
                let is_leaked = leaked.has(alloc, for_whom)?;
                Ok(Fact::of_key(is_leaked, *key))
            }
            DrawMark::Rotation(key) => Ok(Fact::Key(*key)),
            DrawMark::Challenge(value) => Ok(Fact::Challenge(*value)),
            DrawMark::Nonce(value) => Ok(Fact::Nonce(*value)),
            DrawMark::Cookie(value) => Ok(Fact::Cookie(*value)),
        }
    }

    fn of_key(is_leaked: bool, key: [u8; 16]) -> Fact
        ensures { result ≡ key_fact is_leaked key }
    {
        if is_leaked {
            Fact::LeakedKey(key)
        } else {
            Fact::Key(key)
        }
    }

    // A number by which facts are soon told apart.
    fn number(&self) -> u64
        ensures { result ≡ number_of self.now }
    {
        match self {
            Fact::Sealed { content, key } => number_in(key, content.bytes()),
            Fact::Signed { content, key } => number_in(key, content.bytes()),
            Fact::Key(key) => number_in(key, key),
            Fact::LeakedKey(key) => number_in(key, key),
            Fact::Challenge(value) => *value,
            Fact::Nonce(value) => *value,
            Fact::Cookie(value) => *value,
        }
    }
}

/// The key of a connection: the first 16 bytes of its secret.
fn front_of(secret: &[u8; 64]) -> [u8; 16]
    ensures { result ≡ take 16 secret.now }
{
    let Some((key, _)) = secret.split_first_chunk::<16>() else {
        unreachable!()
    };
    *key
}

// A number by which contents under keys are soon told apart.
fn number_in(key: &[u8; 16], bytes: &[u8]) -> u64
    ensures { result ≡ number_in key.now bytes.now }
{
    let within = four_at(bytes, 4).wrapping_add(four_at(bytes, 16));
    u64::from(four_at(key, 0)) * 0x1_0000_0000 + u64::from(within)
}

// The number in the four bytes from a place on.
#[inline(always)]
fn four_at(bytes: &[u8], place: usize) -> u32
    requires { place ≤ 16 }
    ensures { result ≡ four_at bytes.now place }
{
    u32::from_le_bytes([
        byte_at(bytes, place),
        byte_at(bytes, place + 1),
        byte_at(bytes, place + 2),
        byte_at(bytes, place + 3),
    ])
}

// The byte at a place, 0 behind the end.
#[inline(always)]
fn byte_at(bytes: &[u8], place: usize) -> u8
    ensures { result ≡ slice_index bytes.now place }
{
    bytes.get(place).copied().unwrap_or(0)
}

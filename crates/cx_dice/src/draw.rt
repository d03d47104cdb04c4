//! Draws.

ghost use Rattle.std.specs.Prelude.{◌≡◌, length, ◌+◌, ◌%◌, ◌≤◌, ◌<◌, IfOk, IsTrue};
ghost use Rattle.cx_dice.specs.Draws.{Drawing, challenge_of, connection_of, cookie_of, has_keys, nonce_start, part, put_in, rotation_of, session_of, three_keys};
ghost use Rattle.cx_dice.specs.Rolls.{generator_at, seed_bytes, seed_draw};

use cx_base::EntityType;
use rand_chacha::ChaCha20Rng;
use rand_core::SeedableRng;
use rand_core::utils::fill_bytes_via_u32;
use std::alloc::{AllocError, Global};
use std::marker::Model;

/// What a node draws for one event: 384 random bytes, of which each use has a place of its own. An event uses few of them, and
/// those of a seed are computed where they are used.
#[derive(Debug, Drop)]
pub struct Draw {
    source: Source,
}

// Where the bytes of a draw come from: they are these, or those of a seed's draw of this number, of which the first may be at hand. Bytes
// stand in boxes, since most draws are of a seed and go through many hands.
#[derive(Debug, Drop)]
enum Source {
    Given(Box<[u8; 384]>),
    Numbered(u64, u64),
    AtHand(u64, u64, Box<[u8; 256]>),
}

impl Model for Draw {
    ghost use Rattle.cx_dice.specs.Draws.{Drawing};
    ghost use Rattle.cx_dice.specs.Sources.{IsKept, bytes_of};

    ghost Value = { Drawing };

    ghost view = { λ d. record { bytes = bytes_of d.source } };

    ghost invariant = { λ d. IsKept d.source };
}

impl Draw {
    /// The draw of these bytes.
    pub fn of(alloc: Global, bytes: [u8; 384]) -> Result<Draw, AllocError>
        ensures { IfOk result (λ draw. draw ≡ record { bytes = bytes }) }
    {
        let bytes = Box::new(alloc, bytes)?;
        Ok(Draw {
            source: Source::Given(bytes),
        })
    }

    /// The draw of this number, from 0, of a seed.
    pub(crate) fn numbered(seed: u64, number: u64) -> Draw
        ensures { result ≡ record { bytes = seed_draw seed number } }
    {
        Draw {
            source: Source::Numbered(seed, number),
        }
    }

    /// The same draw, with its first 256 bytes at hand: where several parts of it are used, none of these is computed twice.
    pub fn at_hand(&self, alloc: Global) -> Result<Draw, AllocError>
        ensures { IfOk result (λ draw. draw ≡ self.now) }
    {
        match &self.source {
            Source::Given(bytes) => Draw::of(alloc, *bytes.as_ref()),
            Source::Numbered(seed, number) => with_first(
                alloc,
                *seed,
                *number,
                part_of(*seed, *number, 0),
            ),
            Source::AtHand(seed, number, first) => {
                with_first(alloc, *seed, *number, *first.as_ref())
            }
        }
    }

    /// All its bytes.
    pub fn bytes(&self) -> [u8; 384]
        ensures bytes { result ≡ self.now.bytes }
        ensures whole { length self.now.bytes ≡ 384 }
    {
        self.part(0)
    }

    /// A challenge, or the nonce of an authorizer.
    pub fn challenge(&self) -> u64
        ensures { result ≡ challenge_of self.now.bytes }
    {
        u64::from_le_bytes(self.part(0))
    }

    /// A cookie.
    pub fn cookie(&self) -> u64
        ensures { result ≡ cookie_of self.now.bytes }
    {
        u64::from_le_bytes(self.part(8))
    }

    /// The secret of a connection: a key, the nonce with which the acceptor begins, and the one with which the connector
    /// begins. The two differ in their first bit, and both count from 0.
    pub fn connection_secret(&self) -> [u8; 64]
        ensures { result ≡ connection_of self.now.bytes }
    {
        let drawn = self.part::<64>(16);
        let mut secret = [0; 64];
        put(&mut secret, 0, &piece::<16>(&drawn, 0));
        put(&mut secret, 16, &nonce_start(&drawn, 16, 0));
        put(&mut secret, 28, &nonce_start(&drawn, 28, 128));
        put(&mut secret, 40, &piece::<24>(&drawn, 40));
        secret
    }

    /// The session key for a service.
    pub fn session_key(&self, service: EntityType) -> [u8; 16]
        requires { IsTrue (has_keys service) }
        ensures { result ≡ session_of service self.now.bytes }
    {
        match service {
            EntityType::Auth => self.part(80),
            EntityType::Mds => self.part(96),
            EntityType::Osd => self.part(112),
            EntityType::Mgr => self.part(128),
            EntityType::Mon => unreachable!(),
            EntityType::Client => unreachable!(),
        }
    }

    /// The keys of a service's generations, for as many as are added.
    pub fn rotation_keys(&self, service: EntityType) -> [[u8; 16]; 3]
        requires { IsTrue (has_keys service) }
        ensures { result ≡ rotation_of service self.now.bytes }
    {
        match service {
            EntityType::Mds => three_keys(&self.part(144)),
            EntityType::Osd => three_keys(&self.part(192)),
            EntityType::Mgr => three_keys(&self.part(240)),
            EntityType::Auth => three_keys(&self.part(288)),
            EntityType::Mon => unreachable!(),
            EntityType::Client => unreachable!(),
        }
    }

    // The bytes from this place on, which is that of a word.
    fn part<const N: usize>(&self, place: usize) -> [u8; N]
        requires word { place % 4 ≡ 0 }
        requires within { place + N ≤ 384 }
        ensures taken { result ≡ part place N self.now.bytes }
        ensures whole { length self.now.bytes ≡ 384 }
    {
        match &self.source {
            Source::Given(bytes) => piece(bytes.as_ref(), place),
            Source::Numbered(seed, number) => part_of(*seed, *number, place),
            Source::AtHand(seed, number, first) => {
                if place + N <= 256 {
                    piece(first.as_ref(), place)
                } else {
                    part_of(*seed, *number, place)
                }
            }
        }
    }
}

// A seed's draw of this number, with its first bytes at hand.
fn with_first(alloc: Global, seed: u64, number: u64, first: [u8; 256]) -> Result<Draw, AllocError>
    requires { first ≡ part 0 256 (seed_draw seed number) }
    ensures { IfOk result (λ draw. draw ≡ record { bytes = seed_draw seed number }) }
{
    let first = Box::new(alloc, first)?;
    Ok(Draw {
        source: Source::AtHand(seed, number, first),
    })
}

// The bytes of a seed's draw of this number from this place on, which is that of a word.
fn part_of<const N: usize>(seed: u64, number: u64, place: usize) -> [u8; N]
    requires word { place % 4 ≡ 0 }
    requires within { place + N ≤ 384 }
    ensures { result ≡ part place N (seed_draw seed number) }
{
    let mut part = [0; N];
    let word = 96 * u128::from(number) + place as u128 / 4;
    fill_bytes_via_u32(&mut generator_at(seed, word), &mut part);
    part
}

// The generator of a seed before this word.
fn generator_at(seed: u64, word: u128) -> ChaCha20Rng
    ensures { result ≡ generator_at seed word }
{
    let mut generator = ChaCha20Rng::from_seed(seed_bytes(seed));
    generator.set_word_pos(word);
    generator
}

fn seed_bytes(seed: u64) -> [u8; 32]
    ensures { result ≡ seed_bytes seed }
{
    let mut bytes = [0; 32];
    bytes[..8].copy_from_slice(&seed.to_le_bytes());
    bytes
}

// The three keys that these bytes are.
fn three_keys(bytes: &[u8; 48]) -> [[u8; 16]; 3]
    ensures { result ≡ three_keys 0 bytes.now }
{
    [piece(bytes, 0), piece(bytes, 16), piece(bytes, 32)]
}

// The four bytes from this place on with which a nonce begins, the highest bit that of `high`, which is 0 or 128.
fn nonce_start(bytes: &[u8; 64], place: usize, high: u8) -> [u8; 4]
    requires place { place + 4 ≤ 64 }
    requires high { high ≤ 128 }
    ensures { result ≡ nonce_start high place bytes.now }
{
    let [first, second, third, fourth] = piece::<4>(bytes, place);
    [first % 128 + high, second, third, fourth]
}

// The bytes from this place on.
fn piece<const N: usize>(bytes: &[u8], place: usize) -> [u8; N]
    requires { place + N ≤ length bytes.now }
    ensures { result ≡ part place N bytes.now }
{
    let mut piece = [0; N];
    piece.copy_from_slice(&bytes[place..place + N]);
    piece
}

// Puts the bytes at this place of the secret.
fn put(secret: &mut [u8; 64], place: usize, bytes: &[u8])
    requires { place + length bytes.now ≤ 64 }
    ensures { secret.new ≡ put_in place bytes.now secret.old }
{
    secret[place..place + bytes.len()].copy_from_slice(bytes);
}

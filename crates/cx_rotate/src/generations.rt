//! Generations of a rotating service secret.

ghost use Rattle.std.specs.Prelude.{◌≡◌, ◌+◌, ◌≤◌, ◌<◌, ◌^◌, ◌==◌, IsTrue, [], ◌∷◌, length, ◌↔◌, Some, find, slice_get, MatchOption, IfSome, IfNone};
ghost use Rattle.std.specs.Option.{option_map};
ghost use Rattle.cx_rotate.specs.Held.{HasGap, IsRising, listed};
ghost use Rattle.cx_rotate.specs.Rotation.{Rotated, rotated, additions, grown, is_current, is_full};

use cx_base::{Reading, SECOND};
use std::marker::Model;

// From this newest id on nothing is added.
const LAST_ID: u64 = u64::MAX - 3;

// From this newest expiry on nothing is added.
const LAST_EXPIRY: Reading = 4_200_000_000 * SECOND;

/// One generation of a service's rotating secret: its id from 1, its AES-128 key and the reading, in nanoseconds, from
/// which it has expired.
#[derive(Clone, Copy, Debug, PartialEq, Eq)]
pub struct Generation {
    pub id: u64,
    pub key: [u8; 16],
    pub expires: Reading,
}

/// The generations that stand: none, or three whose ids rise by one.
#[derive(Clone, Copy, Debug, PartialEq, Eq)]
pub struct Generations {
    held: Option<Three>,
}

#[derive(Clone, Copy, Debug, PartialEq, Eq)]
struct Three {
    previous: Generation,
    current: Generation,
    next: Generation,
}

impl Model for Generations {
    ghost use Rattle.std.specs.Prelude.{List};
    ghost use Rattle.cx_rotate.specs.declared.generations.Generation.{Generation};
    ghost use Rattle.cx_rotate.specs.Held.{listed, IsRising, held_of};

    ghost Value = { List Generation };

    ghost view = { λ g. listed g.held };

    ghost invariant = { λ g. IsRising (listed g.held) };

    ghost inverse = { λ gs. record { held = held_of gs } };
}

impl Generations {
    /// No generations.
    pub fn empty() -> Generations
        ensures { result ≡ [] }
    {
        Generations { held: None }
    }

    /// These three. There is none where their ids don't rise by one.
    pub fn of(all: &[Generation; 3]) -> Option<Generations>
        ensures some { IfSome result (λ generations. generations ≡ all.now) }
        ensures none { IfNone result (HasGap all.now) }
    {
        let [previous, current, next] = *all;
        if !follows(&previous, &current) || !follows(&current, &next) {
            return None;
        }
        Some(Generations {
            held: Some(Three {
                previous,
                current,
                next,
            }),
        })
    }

    /// Adds generations until the second is unexpired, and answers how many were added. From none three are added, from
    /// three at most two. Nothing is added where the newest id is at least 2^64 - 4 or the newest expiry at least
    /// 4,200,000,000 s.
    pub fn rotate(&mut self, now: Reading, life: u64, keys: &[[u8; 16]; 3]) -> u8
        requires now { now < 4000000000000000000 }
        requires shortest { 1000000000 ≤ life }
        requires longest { life ≤ 31536000000000000 }
        ensures rotated { Rotated self.old now life keys.now self.new result }
        ensures new { self.new ≡ rotated now life keys.now self.old }
        ensures count { result ≡ additions now life keys.now self.old }
        ensures from_none { self.old ≡ [] → result ≡ 3 }
        ensures from_three { length self.old ≡ 3 → result ≤ 2 }
    {
        let Some(three) = self.held else {
            self.held = Some(Three::opening(now, life, keys));
            return 3;
        };
        if three.is_full() || three.is_current(now) {
            return 0;
        }
        let shifted = three.shifted(now, life, keys[0]);
        if shifted.is_current(now) {
            self.held = Some(shifted);
            return 1;
        }
        self.held = Some(shifted.shifted(now, life, keys[1]));
        2
    }

    /// The key of the generation with this id.
    pub fn find(&self, id: u64) -> Option<[u8; 16]>
        ensures { result ≡ option_map (λ g. g.key) (find (λ g. g.id == id) self.now) }
    {
        let three = self.held?;
        if three.previous.id == id {
            return Some(three.previous.key);
        }
        if three.current.id == id {
            return Some(three.current.key);
        }
        if three.next.id == id {
            return Some(three.next.key);
        }
        None
    }

    /// The generation at this place, from 0.
    pub fn get(&self, place: u8) -> Option<Generation>
        ensures { result ≡ slice_get self.now place }
    {
        let three = self.held?;
        match place {
            0 => Some(three.previous),
            1 => Some(three.current),
            2 => Some(three.next),
            _ => None,
        }
    }

    /// The three that stand.
    pub fn all(&self) -> Option<[Generation; 3]>
        ensures held { MatchOption result (self.now ≡ []) (λ all. self.now ≡ all) }
        ensures rising { IsRising self.now }
    {
        let three = self.held?;
        Some([three.previous, three.current, three.next])
    }
}

impl Three {
    // The first three, with ids from 1.
    fn opening(now: Reading, life: u64, keys: &[[u8; 16]; 3]) -> Three
        requires now { now < 4000000000000000000 }
        requires longest { life ≤ 31536000000000000 }
        ensures grown { listed (Some result) ≡ grown now life keys.now [] }
        ensures rising { IsRising (listed (Some result)) }
    {
        Three {
            previous: Generation {
                id: 1,
                key: keys[0],
                expires: now + life,
            },
            current: Generation {
                id: 2,
                key: keys[1],
                expires: now + 2 * life,
            },
            next: Generation {
                id: 3,
                key: keys[2],
                expires: now + 3 * life,
            },
        }
    }

    // Whether no more may be added.
    fn is_full(&self) -> bool
        ensures { result ≡ is_full (listed (Some self.now)) }
    {
        self.next.id >= LAST_ID || self.next.expires >= LAST_EXPIRY
    }

    fn is_current(&self, now: Reading) -> bool
        ensures { result ≡ is_current now (listed (Some self.now)) }
    {
        now < self.current.expires
    }

    // One generation later, with this key for the new one.
    fn shifted(&self, now: Reading, life: u64, key: [u8; 16]) -> Three
        requires now { now < 4000000000000000000 }
        requires longest { life ≤ 31536000000000000 }
        requires id { self.now.next.id + 1 < 2 ^ 64 }
        requires expires { self.now.next.expires < 4300000000000000000 }
        ensures { listed (Some result) ≡ grown now life (key ∷ []) (listed (Some self.now)) }
    {
        let expires = (now + life).max(self.next.expires) + life;
        Three {
            previous: self.current,
            current: self.next,
            next: Generation {
                id: self.next.id + 1,
                key,
                expires,
            },
        }
    }
}

// Whether the second's id is the next one.
fn follows(first: &Generation, second: &Generation) -> bool
    ensures { IsTrue result ↔ (second.now.id ≡ first.now.id + 1) }
{
    second.id.checked_sub(first.id) == Some(1)
}

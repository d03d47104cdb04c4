//! Dice in memory, which roll a generator of a number and fail where they are told to.

ghost use Rattle.std.specs.Prelude.{◌≡◌, IfOk, is_ok, Some};
ghost use Rattle.rand_chacha.specs.ChaCha.{of_seed};
ghost use Rattle.cx_base.specs.Streams.{Counts, is_listed};
ghost use Rattle.cx_dice.specs.Rolls.{GivesDraw, after_block, draws_of, rolled, rolls_next, seed_bytes};

use crate::dice::Dice;
use crate::draw::Draw;
use cx_base::{Blob, Failed};
use std::marker::Model;

/// The draws of ChaCha20, seeded by a number. Call number i, from 1, fails where `fails` holds the byte i, and the next call
/// gives the draw that it would have given.
#[derive(Debug, Drop)]
pub struct SeedDice {
    seed: u64,
    // The number of the next draw, from 0: after 2^63 draws the stream repeats, so the highest bit makes no difference.
    number: u64,
    fails: Blob,
    calls: u64,
    faults: u64,
}

impl Model for SeedDice {
    ghost use Rattle.std.specs.Prelude.{◌*◌};
    ghost use Rattle.cx_dice.specs.Rolls.{Rolling, generator_at};

    ghost Value = { Rolling };

    ghost view = { λ d. record { generator = generator_at d.seed (96 * d.number); fails = d.fails; calls = d.calls; faults = d.faults } };
}

impl SeedDice {
    /// The dice of this number.
    pub fn new(seed: u64, fails: Blob) -> SeedDice
        ensures { result ≡ record { generator = of_seed (seed_bytes seed); fails = fails; calls = 0; faults = 0 } }
    {
        SeedDice {
            seed,
            number: 0,
            fails,
            calls: 0,
            faults: 0,
        }
    }
}

impl Dice for SeedDice {
    ghost use Rattle.std.specs.Prelude.{Some};

    ghost coming = { λ d. Some (draws_of d.generator) };

    ghost faults = { λ d. d.faults };

    /// Fails exactly where the number of this call is listed.
    fn block(&mut self) -> Result<Draw, Failed>
        ensures gives { IfOk result (λ draw. GivesDraw (Some (draws_of self.old.generator)) (Some (draws_of self.new.generator)) draw.bytes) }
        ensures count { Counts self.old.faults self.new.faults result }
        ensures answer { is_ok result ≡ rolls_next self.old }
        ensures drawn { IfOk result (λ draw. draw.bytes ≡ (rolled self.old.generator).0) }
        ensures state { self.new ≡ after_block self.old }
    {
        self.calls = self.calls.saturating_add(1);
        if is_listed(self.fails.bytes(), self.calls) {
            self.faults = self.faults.saturating_add(1);
            return Err(Failed);
        }
        let draw = Draw::numbered(self.seed, self.number);
        self.number = self.number.wrapping_add(1);
        Ok(draw)
    }
}

fn is_listed(fails: &[u8], call: u64) -> bool
    ensures { result ≡ is_listed fails.now call }
{
    fails.iter().any(|b| u64::from(*b) == call)
}

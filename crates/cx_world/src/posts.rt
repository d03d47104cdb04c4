//! What a node goes by.

ghost use Rattle.std.specs.Prelude.{ℕ, suc, ◌≡◌, ◌<◌};
ghost use Rattle.cx_dice.specs.Rolls.{seed_draw};
ghost use Rattle.cx_world.specs.actors.Posts.{IsOf};
ghost use Rattle.cx_world_start.specs.cx_run.specs.Worlds.{Post as RunPost};

use cx_base::{Blob, Reading};
use cx_dice::{Dice, Draw, SeedDice, draw_laws};
use std::alloc::Global;
use std::marker::Model;

/// What a node goes by: the reading of its clock, and its dice.
#[derive(Drop)]
pub struct Post {
    reading: Reading,
    dice: SeedDice,
}

impl Model for Post {
    ghost use Rattle.cx_world.specs.actors.Posts.{IsSitting, Sitting};

    ghost Value = { Sitting };

    ghost view = { λ s. record { reading = s.reading; dice = s.dice } };

    ghost invariant = { λ s. IsSitting (record { reading = s.reading; dice = s.dice }) };
}

impl Post {
    /// The post of a node whose dice have this seed, as a run begins.
    pub fn new(alloc: Global, seed: u64) -> Post
        ensures { (post : RunPost) → post.reading ≡ 0 → post.seed ≡ seed → post.rolled ≡ 0 → IsOf post result }
    {
        draw_laws();
        Post {
            reading: 0,
            dice: SeedDice::new(seed, Blob::new(alloc)),
        }
    }

    /// The reading of its clock.
    pub fn reading(&self) -> Reading
        ensures value { result ≡ self.now.reading }
        ensures below { result < 4000000000000000000 }
    {
        self.reading
    }

    /// Its clock reads this from here on.
    pub fn set(&mut self, reading: Reading)
        requires { reading < 4000000000000000000 }
        ensures { self.new ≡ record self.old { reading = reading } }
    {
        self.reading = reading;
    }

    /// Rolls its dice once.
    pub fn roll(&mut self) -> Draw
        ensures drawn { (post : RunPost) → IsOf post self.old → result.bytes ≡ seed_draw post.seed post.rolled }
        ensures rolled { (post : RunPost) → IsOf post self.old → IsOf (record post { rolled = suc post.rolled }) self.new }
        ensures reading { self.new.reading ≡ self.old.reading }
    {
        match self.dice.block() {
            Ok(draw) => draw,
            Err(_) => unreachable!(),
        }
    }
}

//! The secrets of entities.

ghost use Rattle.std.specs.Prelude.{◌≡◌, take};
ghost use Rattle.cx_dice.specs.Rolls.{seed_draw};

use cx_base::Blob;
use cx_dice::{Dice, Draw, SeedDice, draw_laws};
use std::alloc::Global;

/// The first 16 bytes that a seed gives.
pub fn secret_of_seed(alloc: Global, seed: u64) -> [u8; 16]
    ensures { result ≡ take 16 (seed_draw seed 0) }
{
    let draw = first_draw(alloc, seed);
    let mut secret = [0; 16];
    secret.copy_from_slice(&draw.bytes()[..16]);
    secret
}

/// The first draw of a seed.
fn first_draw(alloc: Global, seed: u64) -> Draw
    ensures { result.bytes ≡ seed_draw seed 0 }
{
    draw_laws();
    let mut dice = SeedDice::new(seed, Blob::new(alloc));
    match dice.block() {
        Ok(draw) => draw,
        Err(_) => unreachable!(),
    }
}

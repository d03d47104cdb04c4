//! The draws of a node.

use cx_base::Blob;
use cx_dice::{Dice, Draw, SeedDice};
use std::alloc::Global;

/// The draws of a node, in their order.
#[derive(Drop)]
pub struct Draws {
    dice: SeedDice,
    next: u32,
}

impl Draws {
    /// The draws of a seed.
    pub fn new(alloc: Global, seed: u64) -> Draws {
        Draws {
            dice: SeedDice::new(seed, Blob::new(alloc)),
            next: 0,
        }
    }

    /// The draw of this number, where it is none of the earlier ones.
    pub fn draw(&mut self, number: u32) -> Option<Draw> {
        let mut draw = None;
        let end = number.saturating_add(1);
        for _ in self.next..end {
            if let Ok(next) = self.dice.block() {
                draw = Some(next);
            }
        }
        self.next = end;
        draw
    }
}

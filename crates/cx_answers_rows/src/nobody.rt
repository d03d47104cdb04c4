//! No nodes but the monitor and clients.

ghost use Rattle.std.specs.Prelude.{◌<◌};

use crate::run::Others;
use cx_base::Reading;
use cx_dice::Draw;
use cx_steps::{Effects, Event};
use std::alloc::{AllocError, Global};

/// Rows of no other kind, and nodes of none.
#[derive(Drop)]
pub struct Nobody {}

impl Others for Nobody {
    fn anew(&self, _alloc: Global) -> Nobody {
        Nobody {}
    }

    fn told(
        &mut self,
        alloc: Global,
        _ring: &[u8],
        kind: &str,
        rest: &str,
    ) -> Result<String, AllocError> {
        format!(in alloc; "{kind} {rest}: no such row\n")
    }

    fn draw(&mut self, _node: &str, _number: u32) -> Option<Draw> {
        None
    }

    fn step(
        &mut self,
        _alloc: Global,
        _node: &str,
        _event: Event<'_>,
        _now: Reading,
        _draw: &Draw,
    ) -> Result<Option<Effects>, AllocError> {
        Ok(None)
    }
}

//! The ends of links, as they are told of what comes.

ghost use Rattle.std.specs.Prelude.{◌≡◌, IfOk};
ghost use Rattle.std.specs.Option.{option_map};
ghost use Rattle.cx_world_start.specs.cx_run.specs.Wires.{wire_of};
ghost use Rattle.cx_world.specs.Ends.{end_seen};

use cx_base::{Duplicate, NodeName};
use cx_words::Side;
use cx_world_start::Wires;
use std::alloc::{AllocError, Global};

/// An end of a link: the link's number, the end's node, and whether that still has it.
#[derive(Drop)]
pub struct LinkEnd {
    pub number: u32,
    pub node: NodeName,
    pub lives: bool,
}

// An end of the link of a number, if there is one.
pub(crate) fn end_at(
    alloc: Global,
    wires: &Wires,
    number: u64,
    side: Side,
) -> Result<Option<LinkEnd>, AllocError>
    ensures { IfOk result (λ end. end ≡ option_map (λ wire. end_seen wire side) (wire_of number wires.now)) }
{
    match wires.get(number) {
        Some(wire) => {
            let node = wire.node_at(side).copy(alloc)?;
            Ok(Some(LinkEnd {
                number: wire.number(),
                node,
                lives: wire.lives(side),
            }))
        }
        None => Ok(None),
    }
}

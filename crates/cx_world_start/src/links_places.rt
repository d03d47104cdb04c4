//! The place of a link in the table.

ghost use Rattle.std.specs.Prelude.{◌≡◌, ◌+◌, ◌<◌, ◌⊎◌, length, None, IfSome, IfNone};
ghost use Rattle.cx_run.specs.Wires.{wire_of};
ghost use Rattle.cx_world_start.specs.links.Tables.{AreNumbered};

use crate::wire::Wire;

// The place of a number among these links, if one of them has it.
#[tactic(auto, using(crate::proofs::links::Numbers::found_nowhere))]
pub(crate) fn place_of(wires: &[Wire], number: u64) -> Option<usize>
    requires { AreNumbered 1 wires.now }
    ensures some { IfSome result (λ place. (place < length wires.now) × (number ≡ place + 1)) }
    ensures none { IfNone result (wire_of number wires.now ≡ None) }
{
    place_among(number, wires.len())
}

// The place of a number from 1 among so many.
fn place_among(number: u64, count: usize) -> Option<usize>
    ensures some { IfSome result (λ place. (place < count) × (number ≡ place + 1)) }
    ensures none { IfNone result ((number ≡ 0) ⊎ (count < number)) }
{
    if number == 0 {
        return None;
    }
    let place = number - 1;
    if place < count as u64 {
        Some(place as usize)
    } else {
        None
    }
}

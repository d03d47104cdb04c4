//! Looking a number up among places whose numbers rise.

ghost use Rattle.std.specs.Prelude.{◌≡◌, ◌<◌, ◌≤◌, ◌+◌, length, take, drop, MatchResult};
ghost use Rattle.cx_node.specs.Places.{IsRising, AreBelow, AreFrom, IsFoundAt, IsMissingAt};

use crate::places::LinkPlace;

// How many places have a lower number.
fn rank<L>(places: &[LinkPlace<L>], number: u32) -> usize
    requires { IsRising 0 places.now }
    ensures within { result ≤ length places.now }
    ensures below { AreBelow number (take result places.now) }
    ensures from { AreFrom number (drop result places.now) }
{
    places.partition_point(|place| place.number() < number)
}

// Where the place of a number stands, or where it would stand.
pub(crate) fn place_of<L>(places: &[LinkPlace<L>], number: u32) -> Result<usize, usize>
    requires { IsRising 0 places.now }
    ensures { MatchResult result (IsFoundAt number places.now) (IsMissingAt number places.now) }
{
    let rank = rank(places, number);
    if rank == places.len() {
        return Err(rank);
    }
    if places[rank].number() == number {
        Ok(rank)
    } else {
        Err(rank)
    }
}

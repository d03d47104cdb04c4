//! Laws of passes and of a hall's history, which crates above may rest on.

ghost use Rattle.std.specs.Prelude.{◌≡◌};
ghost use Rattle.cx_hall.specs.History.{HallHistory};
ghost use Rattle.cx_hall.specs.Passes.{own};
ghost use Rattle.cx_hall.specs.Lawful.{SawOneHistory, NumbersPasses, IsAnsweredAsTold};

use crate::pass::Pass;
use crate::rule::HallName;
use cx_base::Owner;
use cx_session::told_laws;

/// Under the rule that each step keeps, of what two passes have seen one begins with the other, and no two passes have one
/// number. A history of what its owners tell is answered as the history is: so it may hold plain data.
pub fn hall_laws<O: Owner>()
    ensures one { SawOneHistory O.entity_of O.gid_of }
    ensures number { NumbersPasses O.entity_of O.gid_of }
    ensures told { IsAnsweredAsTold O.entity_of O.gid_of O.caps_of O.reading_of }
{
    told_laws::<O>();
}

/// Of every pass: what it has seen is a history, in which its own entries are all that have its number, at the places where they
/// stand.
pub fn pass_laws<O: Owner, N: HallName>(pass: &Pass<O, N>)
    ensures history { HallHistory O.entity_of O.gid_of pass.now.seen }
    ensures own { own pass.now.number 0 pass.now.seen ≡ pass.now.mine }
{
    let _ = &pass.badge;
}

//! Where a node runs.

ghost use Rattle.std.specs.Prelude.{◌≡◌, ◌<◌, [], ◌∷◌, length, IfOk, MatchResult, is_ok};
ghost use Rattle.std.specs.Option.{option_map};
ghost use Rattle.std.specs.Result.{result_ok};
ghost use Rattle.cx_outside.specs.linking.Acts.{Opened, Gave, Broke, Sent, Shut, Regarded};
ghost use Rattle.cx_outside.specs.linking.Events.{IsWithin, came};
ghost use Rattle.cx_rotate.specs.Keeping.{IsKeptState};
ghost use Rattle.cx_outside.specs.site.Acts.{Linked, Read, Rolled, saving};

use crate::{LinkEvent, Regard};
use cx_base::{Addr, Failed, Reading};
use cx_dice::Draw;
use cx_keep::CommitRefusal;
use cx_rotate::KeptState;
use std::alloc::Global;

/// One object for all that lies outside of a node that runs. `follows`: between the one moment and the other came just these acts, in
/// their order. Who knows nothing else of an object knows the order of what was done by its calls.
pub trait Site {
    ghost use Rattle.std.specs.Prelude.{List, [], ◌++◌};
    ghost use Rattle.cx_outside.specs.site.Acts.{Act};

    ghost follows: { Self → Self → List Act → Type 0 };

    ghost stays: { (s : Self) → follows s s [] };

    ghost goes_on: { (a b c : Self) (xs ys : List Act) → follows a b xs → follows b c ys → follows a c (xs ++ ys) };

    /// What comes next on the node's links. Bytes are written at the beginning of `into`.
    fn next(&mut self, into: &mut [u8]) -> Result<LinkEvent, Failed>
        requires { 0 < length into.old }
        ensures did { MatchResult result (λ event. follows self.old self.new (Linked (Gave event (came event into.new)) ∷ [])) (λ _. follows self.old self.new (Linked Broke ∷ [])) }
        ensures bound { IfOk result (λ event. IsWithin event (length into.old)) }
        ensures room { length into.new ≡ length into.old };

    /// Reads the clock.
    fn read(&mut self) -> Reading
        ensures below { result < 4000000000000000000 }
        ensures did { follows self.old self.new (Read result ∷ []) };

    /// Rolls the dice.
    fn block(&mut self) -> Result<Draw, Failed>
        ensures did { follows self.old self.new (Rolled (option_map (λ draw. draw.bytes) (result_ok result)) ∷ []) };

    /// Saves the monitor's state.
    fn save(&mut self, alloc: Global, state: &KeptState) -> Result<(), CommitRefusal>
        requires { IsKeptState state.now }
        ensures did { follows self.old self.new (saving state.now result) };

    /// Sends these bytes on a link.
    fn send(&mut self, link: u32, bytes: &[u8]) -> Result<(), Failed>
        ensures did { follows self.old self.new (Linked (Sent link bytes.now (is_ok result)) ∷ []) };

    /// Opens a link to this address and answers its number.
    fn open(&mut self, to: &Addr) -> Result<u32, Failed>
        ensures did { follows self.old self.new (Linked (Opened to.now (result_ok result)) ∷ []) };

    /// Shuts a link.
    fn shut(&mut self, link: u32)
        ensures did { follows self.old self.new (Linked (Shut link) ∷ []) };

    /// Tells how the node regards a link.
    fn regard(&mut self, link: u32, regard: Regard)
        ensures did { follows self.old self.new (Linked (Regarded link regard) ∷ []) };
}

//! Links.

ghost use Rattle.std.specs.Prelude.{ℕ, ◌≡◌, ◌<◌, List, [], ◌∷◌, ◌++◌, length, IfOk, MatchResult, is_ok};
ghost use Rattle.std.specs.Result.{result_ok};
ghost use Rattle.cx_base.specs.Streams.{Counts};
ghost use Rattle.cx_outside.specs.linking.Acts.{LinkAct, Listened, Opened, Gave, Broke, Sent, Shut, Regarded};
ghost use Rattle.cx_outside.specs.linking.Events.{IsWithin, came};

use crate::events::LinkEvent;
use crate::regard::Regard;
use cx_base::{Addr, Failed};

/// Links to other nodes. `follows`: between the one moment and the other just these acts came, in their order. `faults` counts
/// the failures of `listen` and `next`, and `misses` those of `open` and `send`.
pub trait Links {
    ghost use Rattle.std.specs.Prelude.{ℕ, List, [], ◌++◌};
    ghost use Rattle.cx_outside.specs.linking.Acts.{LinkAct};

    ghost follows: { Self → Self → List LinkAct → Type 0 };

    ghost stays: { (l : Self) → follows l l [] };

    ghost goes_on: { (a b c : Self) (xs ys : List LinkAct) → follows a b xs → follows b c ys → follows a c (xs ++ ys) };

    ghost faults: { Self → ℕ };

    ghost misses: { Self → ℕ };

    /// Listens at this address.
    fn listen(&mut self, at: &Addr) -> Result<(), Failed>
        ensures did { follows self.old self.new (Listened at.now (is_ok result) ∷ []) }
        ensures cause { Counts (faults self.old) (faults self.new) result }
        ensures other { misses self.new ≡ misses self.old };

    /// Opens a link to this address and answers its number.
    fn open(&mut self, to: &Addr) -> Result<u32, Failed>
        ensures did { follows self.old self.new (Opened to.now (result_ok result) ∷ []) }
        ensures cause { Counts (misses self.old) (misses self.new) result }
        ensures other { faults self.new ≡ faults self.old };

    /// What comes next. Bytes are written at the beginning of `into`.
    fn next(&mut self, into: &mut [u8]) -> Result<LinkEvent, Failed>
        requires { 0 < length into.old }
        ensures did { MatchResult result (λ event. follows self.old self.new (Gave event (came event into.new) ∷ [])) (λ _. follows self.old self.new (Broke ∷ [])) }
        ensures bound { IfOk result (λ event. IsWithin event (length into.old)) }
        ensures room { length into.new ≡ length into.old }
        ensures cause { Counts (faults self.old) (faults self.new) result }
        ensures other { misses self.new ≡ misses self.old };

    /// Sends these bytes on a link.
    fn send(&mut self, link: u32, bytes: &[u8]) -> Result<(), Failed>
        ensures did { follows self.old self.new (Sent link bytes.now (is_ok result) ∷ []) }
        ensures cause { Counts (misses self.old) (misses self.new) result }
        ensures other { faults self.new ≡ faults self.old };

    /// Shuts a link.
    fn shut(&mut self, link: u32)
        ensures did { follows self.old self.new (Shut link ∷ []) }
        ensures cause { faults self.new ≡ faults self.old }
        ensures other { misses self.new ≡ misses self.old };

    /// Tells how the node regards a link, which may decide how long it stays. That it is gone comes as any end of a link.
    fn regard(&mut self, link: u32, regard: Regard)
        ensures did { follows self.old self.new (Regarded link regard ∷ []) }
        ensures cause { faults self.new ≡ faults self.old }
        ensures other { misses self.new ≡ misses self.old };
}

//! Where draws come from.

ghost use Rattle.std.specs.Prelude.{ℕ, List, Option, IfOk};
ghost use Rattle.cx_base.specs.Streams.{Counts};
ghost use Rattle.cx_dice.specs.Rolls.{GivesDraw};

use crate::draw::Draw;
use cx_base::Failed;

/// Where draws come from. `coming` is what will be drawn, where the object tells that. `faults` counts the calls
/// that failed: it stands where a call goes well.
pub trait Dice {
    ghost coming: { Self → Option (ℕ → List ℕ) };

    ghost faults: { Self → ℕ };

    /// The next draw.
    fn block(&mut self) -> Result<Draw, Failed>
        ensures gives { IfOk result (λ draw. GivesDraw (coming self.old) (coming self.new) draw.bytes) }
        ensures count { Counts (faults self.old) (faults self.new) result };
}

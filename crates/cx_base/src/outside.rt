//! What lies outside of the program: where bytes come from and where they go.

ghost use Rattle.std.specs.Prelude.{ℕ, ◌≤◌, List, length, Option, IfOk, OnOk, OnErr};
ghost use Rattle.cx_base.specs.Streams.{Gives, Takes, TakesFront, HasCause};

use thiserror::Error;

/// A call outside failed. The object's count of faults rose in that call; a count at `u64::MAX` counts as risen.
#[derive(Clone, Copy, Debug, PartialEq, Eq, Error)]
#[error("a call outside of the program failed")]
pub struct Failed;

/// Where input comes from. `left` is what it will still give, where the object tells that.
pub trait Source {
    ghost left: { Self → Option (List ℕ) };

    ghost faults: { Self → ℕ };

    /// Writes the next bytes at the beginning of `into` and answers how many: at least one, save at the end of input and
    /// where `into` has no room.
    fn pull(&mut self, into: &mut [u8]) -> Result<usize, Failed>
        ensures bound { IfOk result (λ n. n ≤ length into.old) }
        ensures gives { IfOk result (Gives (left self.old) (left self.new) into.new) }
        ensures cause { HasCause (faults self.old) (faults self.new) result };
}

/// Where output goes. `taken` is what it took so far, where the object tells that.
pub trait Sink {
    ghost taken: { Self → Option (List ℕ) };

    ghost faults: { Self → ℕ };

    /// Writes all of these bytes, or fails after a front of them.
    fn push(&mut self, bytes: &[u8]) -> Result<(), Failed>
        ensures takes { OnOk result (Takes (taken self.old) (taken self.new) bytes.now) }
        ensures front { OnErr result (TakesFront (taken self.old) (taken self.new) bytes.now) }
        ensures cause { HasCause (faults self.old) (faults self.new) result };
}

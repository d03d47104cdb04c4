//! A hall and a pass as one that answers calls.

ghost use Rattle.std.specs.Prelude.{◌≡◌, ◌≢◌, ℕ};
ghost use Rattle.cx_session.specs.declared.call.BookReply.TheVariants.{OutOfMemory};
ghost use Rattle.cx_hall.specs.Passes.{Answered};

use crate::hall::Hall;
use crate::pass::Pass;
use crate::rule::HallName;
use cx_base::Owner;
use cx_session::{BookCall, BookReply};
use std::alloc::Global;
use std::sync::Wait;

/// A pass at its hall, with the handle by which its calls wait.
#[derive(Drop)]
pub struct Seated<'a, O: Owner, N: HallName, R> {
    pub rt: &'a R,
    pub hall: &'a Hall<O, N>,
    pub pass: &'a mut Pass<O, N>,
}

impl<O: Owner, N: HallName, R: Wait> Seated<'_, O, N, R> {
    /// Makes the hall's call of that name with this pass and gives its answer. The owner of a refused call is given up.
    pub fn answer(&mut self, alloc: Global, call: BookCall<O>) -> BookReply
        ensures answered { result ≢ OutOfMemory → (place : ℕ) × Answered O.entity_of O.gid_of self.old.pass.now call result place self.new.pass.now }
        ensures err { result ≡ OutOfMemory → self.new.pass.now ≡ self.old.pass.now }
    {
        self.hall.answer(self.rt, alloc, self.pass, call).0
    }
}

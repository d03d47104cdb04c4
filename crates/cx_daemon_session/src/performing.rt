//! What becomes of an operation that is taken.

ghost use Rattle.std.specs.Prelude.{◌≡◌, true, IfOk};
ghost use Rattle.cx_caps.specs.Reading.{cap_allows};
ghost use Rattle.cx_desk.specs.Held.{handlers_of};
ghost use Rattle.cx_daemon_session.specs.messages.Performing.{performed};

use cx_base::{Blob, Operation};
use cx_caps::{CapText, Permitted};
use cx_desk::{Desk, ServeRefusal};
use cx_journal::Outcome;
use std::alloc::{AllocError, Global};

/// An operation, how it ended, and the data that answer it.
#[derive(Drop)]
pub(crate) struct Performed {
    pub operation: Operation,
    pub outcome: Outcome,
    pub answer: Blob,
}

/// An operation is denied where the capabilities don't allow it. Else the handler of its kind is called on it, once, where there is one.
pub(crate) fn perform(
    alloc: Global,
    desk: &Desk,
    caps: CapText,
    operation: Operation,
) -> Result<Performed, AllocError>
    ensures { IfOk result (λ done. done ≡ performed (handlers_of desk.now) caps operation) }
{
    match caps.permit(operation) {
        Ok(permitted) => serves(alloc, desk, permitted),
        Err(denied) => Ok(Performed {
            operation: denied.ask,
            outcome: Outcome::Denied,
            answer: Blob::new(alloc),
        }),
    }
}

// One that is permitted.
fn serves(alloc: Global, desk: &Desk, permitted: Permitted) -> Result<Performed, AllocError>
    ensures { cap_allows permitted.caps permitted.ask ≡ true → IfOk result (λ done. done ≡ performed (handlers_of desk.now) permitted.caps permitted.ask) }
{
    match desk.serve(alloc, &permitted) {
        Ok(answer) => Ok(Performed {
            operation: permitted.into_operation(),
            outcome: Outcome::Done,
            answer,
        }),
        Err(ServeRefusal::NoHandler { .. }) => Ok(Performed {
            operation: permitted.into_operation(),
            outcome: Outcome::NoHandler,
            answer: Blob::new(alloc),
        }),
        Err(ServeRefusal::OutOfMemory) => Err(AllocError),
    }
}

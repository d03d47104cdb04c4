//! What the monitor keeps, on its way to be saved.

ghost use Rattle.std.specs.Prelude.{◌≡◌, IfOk};

use crate::states::KeptState;
use std::alloc::{AllocError, Global};
use std::marker::Model;

/// A state that the monitor is to save. It is boxed: it goes by value from call to call, mostly where there is none, and has the secrets of four
/// services.
#[derive(Debug, Drop)]
pub struct BoxedState {
    held: Box<KeptState>,
}

impl Model for BoxedState {
    ghost use Rattle.cx_rotate.specs.declared.states.KeptState.{KeptState};

    ghost Value = { KeptState };

    ghost view = { λ s. s.held.value };
}

impl BoxedState {
    /// A copy of this state.
    pub fn of(alloc: Global, state: &KeptState) -> Result<BoxedState, AllocError>
        ensures { IfOk result (λ boxed. boxed ≡ state.now) }
    {
        let held = Box::new(alloc, *state)?;
        Ok(BoxedState { held })
    }

    /// The state.
    pub fn state(&self) -> &KeptState
        ensures { result.now ≡ self.now }
    {
        self.held.as_ref()
    }
}

//! Rotating service secrets: a service's generations, of which the second is current, what a daemon holds of them, and what the
//! monitor keeps.
#![tactic(auto)]

mod boxes;
mod generations;
mod laws;
mod states;
mod views;

pub use boxes::BoxedState;
pub use generations::{Generation, Generations};
pub use laws::rotation_laws;
pub use states::KeptState;
pub use views::View;

// Generations and views may be sent to another thread and shared between threads.
fn is_sendable<T: Send + Sync>() {}

fn are_sendable() {
    is_sendable::<Generation>();
    is_sendable::<Generations>();
    is_sendable::<KeptState>();
    is_sendable::<BoxedState>();
    is_sendable::<View>();
}

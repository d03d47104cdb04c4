//! Capability texts, and operations that one allows.
#![tactic(auto)]

mod clauses;
mod conditions;
mod cut;
mod kinds;
mod permits;
mod refusals;
mod rights;
mod texts;

pub use permits::Permitted;
pub use refusals::{CapRefusal, Denied};
pub use texts::CapText;

// Each public type may be sent to another thread and shared with one.
fn is_sendable<T: Send + Sync>() {}

fn all_are_sendable() {
    is_sendable::<CapText>();
    is_sendable::<Permitted>();
    is_sendable::<CapRefusal>();
    is_sendable::<Denied>();
}

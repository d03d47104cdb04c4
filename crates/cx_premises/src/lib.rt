//! Whether the log of a run is sound and fresh, or which breach of the two premises comes first.
#![tactic(auto)]

mod facts;
mod findings;
mod judge;
mod kept;
mod leaks;
mod ledger;

pub use judge::first_breach;
pub use ledger::Ledger;

// Each public type may be sent to another thread and shared with one.
fn is_sendable<T: Send + Sync>() {}

fn all_are_sendable() {
    is_sendable::<Ledger>();
}

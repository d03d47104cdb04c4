//! Where names stand in a list, found without going through the list.
#![tactic(auto)]

mod index;

pub use index::Index;

// Each public type may be sent to another thread and shared with one.
fn is_sendable<T: Send + Sync>() {}

fn all_are_sendable() {
    is_sendable::<Index>();
}

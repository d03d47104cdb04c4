//! Stored handlers, one for each kind of access, that serve permitted operations.
#![tactic(auto)]

mod desk;
mod refusals;

pub use desk::{Desk, Handler};
pub use refusals::ServeRefusal;

// Each public type may be sent to another thread and shared with one.
fn is_sendable<T: Send + Sync>(_shared: &T) {}

fn desks_are_sendable(desk: &Desk) {
    is_sendable(desk);
}

fn handlers_are_sendable(handler: &Handler) {
    is_sendable(handler);
}

fn refusals_are_sendable(refusal: &ServeRefusal) {
    is_sendable(refusal);
}

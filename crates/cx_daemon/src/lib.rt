//! A daemon: what it is, its links, its sessions, and what it does at each event.
#![tactic(auto)]

mod daemon;
mod moving;
mod steps;
mod turns;

pub use daemon::Daemon;

// Each public type may be sent to another thread and shared with one.
fn is_sendable<T: Send + Sync>() {}

fn all_are_sendable() {
    is_sendable::<Daemon>();
}

//! The edge of the program: a reader as a source, a writer as a sink.
#![tactic(auto)]

mod streams;

pub use streams::{Input, Output};

// Each of these may be sent to another thread, and shared with one, where what is below it may.
fn is_sendable<T: Send + Sync>() {}

fn edges_are_sendable<T: Send + Sync>() {
    is_sendable::<Input<T>>();
    is_sendable::<Output<T>>();
}

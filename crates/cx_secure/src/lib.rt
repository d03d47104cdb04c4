//! Secure frames of messenger v2.1: sealed under the key of a connection, each part under a counter of its own.
#![tactic(auto)]

mod laws;
mod opening;
mod parts;
mod putting;
mod refusals;
mod rooms;
mod sealing;
mod starting;

pub use laws::{commit_laws, secure_laws};
pub use opening::{MAX_SECURE, rest_len};
pub use refusals::SecureRefusal;
pub use sealing::{Head, SealedAhead, Sealing, Way};

// Each public type may be sent to another thread and shared with one.
fn is_sendable<T: Send + Sync>() {}

fn all_are_sendable() {
    is_sendable::<Sealing>();
    is_sendable::<SealedAhead>();
    is_sendable::<Head>();
    is_sendable::<SecureRefusal>();
}

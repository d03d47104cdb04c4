//! What one that logs in holds, and what it writes of itself in a login: a client, or a daemon towards the monitor.
#![tactic(auto)]

mod answers;
mod mon_clients;
mod offers;
mod pending;
mod steps;
mod tickets;

pub use answers::Answer;
pub use mon_clients::MonClient;
pub use offers::OfferedModes;
pub use pending::{Login, Renewed};
pub use tickets::Holdings;

// Each public type may be sent to another thread and shared with one.
fn is_sendable<T: Send + Sync>() {}

fn all_are_sendable() {
    is_sendable::<OfferedModes>();
    is_sendable::<Login>();
    is_sendable::<Renewed>();
    is_sendable::<Holdings>();
    is_sendable::<MonClient>();
    is_sendable::<Answer>();
}

//! The monitor's key server: who gets which ticket, sealed under which secret.
#![tactic(auto)]

mod issuance;
mod issuing;
mod refusals;
mod rotation;
mod server;
mod services;
mod tickets;

pub use issuance::{Contents, Issuance};
pub use refusals::{GidsSpent, IssueRefusal, NotADaemon};
pub use rotation::is_current;
pub use server::KeyServer;
pub use services::{generations_of, life_of};
pub use tickets::Ticket;

// What crates above name through this one, and so needn't list.
pub use cx_sealed::SealKey;

// Each public type may be sent to another thread and shared with one.
fn is_sendable<T: Send + Sync>() {}

fn all_are_sendable() {
    is_sendable::<Ticket>();
    is_sendable::<Issuance>();
    is_sendable::<KeyServer>();
    is_sendable::<IssueRefusal>();
    is_sendable::<GidsSpent>();
    is_sendable::<NotADaemon>();
}

//! A daemon on an incoming link until the peer has signed: what it does as the link opens and at each banner and frame that comes, and what it
//! holds of the link from then on.
#![tactic(auto)]

mod first;
mod greetings;
mod judged;
mod links;
mod owners;
mod requests;
mod second;
mod served;
mod signatures;
mod turns;

pub use greetings::greeting;
pub use links::{Link, Stage};
pub use owners::SessionOwner;
pub use served::Served;
pub use turns::{IncomingTurn, turned};

// What crates above name through this one, and so needn't list.
pub use cx_holdings::MonClient;
pub use cx_node::{Came, Moment, NoRow, NodeRow, entered_before, handles, unless_refused};
pub use cx_rules_session::daemon_forgetting_laws;

// Each public type may be sent to another thread and shared with one.
fn is_sendable<T: Send + Sync>() {}

fn all_are_sendable() {
    is_sendable::<Stage>();
    is_sendable::<Link>();
    is_sendable::<SessionOwner>();
    is_sendable::<Served>();
    is_sendable::<IncomingTurn>();
}

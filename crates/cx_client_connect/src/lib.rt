//! A client's sessions with daemons: the table of those that it holds, the frames by which they go on, and how their operations end.
//! A client's links to daemons until the daemon is to sign: the banner, HELLO, the ticket that is shown, the daemon's challenge and its reply, one's own
//! signature.
#![tactic(auto)]

mod called;
mod callee;
mod challenges;
mod denials;
mod dones;
mod ends;
mod frames;
mod greetings;
mod kept;
mod links;
mod making;
mod rows;
mod sending;
mod table;
mod turns;

pub use callee::Callee;
pub use ends::{OperationEnd, end_in};
pub use frames::{operation_message, send_waiting, session_reconnect};
pub use kept::HeldSession;
pub use table::{SessionChange, Sessions};
// What crates above name through this one, and so needn't list.
pub use called::Called;
pub use cx_rules_session::client_forgetting_laws;
pub use greetings::{greeting, held_gid, ticket_for};
pub use links::{Link, Stage};
pub use making::{handles, unless_refused};
pub use rows::Change;
pub use turns::{banner_turn, challenge_turn, done_turn, hello_turn};

// Each public type may be sent to another thread and shared with one.
fn is_sendable<T: Send + Sync>() {}

fn session_types_are_sendable() {
    is_sendable::<Callee>();
    is_sendable::<HeldSession>();
    is_sendable::<Sessions>();
    is_sendable::<SessionChange>();
    is_sendable::<OperationEnd>();
}

fn presenting_types_are_sendable() {
    is_sendable::<Called>();
    is_sendable::<Stage>();
    is_sendable::<Link>();
    is_sendable::<Change>();
}

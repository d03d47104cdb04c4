//! Both sides of a login: what is proved was proved, and what is logged in was opened.
#![tactic(auto)]

mod client;
mod held;
mod monitor;
mod opening;
mod proving;
mod refusals;

pub use client::{Asking, Challenged, LoggedIn, opened_login};
pub use held::{HeldTicket, held_tickets};
pub use monitor::{Offered, Proved, Reclaim};
pub use opening::logged;
pub use refusals::{LoginRefusal, WrongProof};

// What crates above name through this one, and so needn't list.
pub use cx_steps::{BytesFault, Entry, LoginFault, Reason, SealEntry};
pub use cx_wire::Request;

// Each public type may be sent to another thread and shared with one.
fn is_sendable<T: Send + Sync>() {}

fn all_are_sendable() {
    is_sendable::<HeldTicket>();
    is_sendable::<Asking>();
    is_sendable::<Challenged>();
    is_sendable::<LoggedIn>();
    is_sendable::<Offered>();
    is_sendable::<Proved>();
    is_sendable::<Reclaim>();
    is_sendable::<LoginRefusal>();
    is_sendable::<WrongProof>();
}

//! What the two ends of a session keep of it: a daemon its book of sessions, a client its outbox.
#![tactic(auto)]

mod book;
mod call;
mod calls;
mod changes;
mod faults;
mod laws;
mod numbers;
mod outbox;
mod places;
mod replies;
mod session;

pub use book::SessionBook;
pub use call::{BookCall, BookFault, BookReply};
use cx_base::Owner;
pub use faults::{AdmitFault, AdmitRefusal, ResumeFault, ResumeRefusal, TakeRefusal};
pub use laws::{book_laws, told_laws};
pub use outbox::{Outbox, QueueFault, QueueRefusal};
pub use replies::message_reply;

// Each public type may be sent to another thread and shared with one.
fn is_sendable<T: Send + Sync>() {}

fn all_are_sendable<O: Owner + Send + Sync>() {
    is_sendable::<SessionBook<O>>();
    is_sendable::<BookCall<O>>();
    is_sendable::<BookReply>();
    is_sendable::<BookFault>();
    is_sendable::<AdmitFault>();
    is_sendable::<AdmitRefusal<O>>();
    is_sendable::<ResumeFault>();
    is_sendable::<ResumeRefusal<O>>();
    is_sendable::<TakeRefusal>();
    is_sendable::<Outbox>();
    is_sendable::<QueueFault>();
    is_sendable::<QueueRefusal>();
}

//! What the monitor grants to an entity that proved itself, at its login and for requests on its link: a global id, tickets, generations, and what
//! is logged, entered and saved of them.
#![tactic(auto)]

mod answers;
mod entries;
mod issuing;
mod logging;
mod logins;
mod numbering;
mod occasions;
mod payloads;
mod replies;
mod rotating;
mod saving;

pub use answers::answer;
pub use cx_rules::{Bearer, HandedOut, ReplyMade, Response, Verdict};
pub use logins::log_in;
pub use occasions::Occasion;

// Its public type may be sent to another thread and shared with one.
fn is_sendable<T: Send + Sync>() {}

fn all_are_sendable() {
    is_sendable::<Occasion>();
}

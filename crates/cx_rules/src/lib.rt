//! The rules of the nodes, as definitions.
#![tactic(auto)]

mod laws;
mod messages;
mod requests;
mod responses;
mod verdicts;

pub use laws::{answering_laws, asking_laws, forgetting_laws, rule_laws};
pub use messages::Body;
pub use requests::{Taken, Waiting, Want};
pub use responses::{Bearer, Demand, ReplyMade, Response};
pub use verdicts::{HandedOut, Verdict};

// What crates above name through this one, and so needn't list.
pub use cx_login::{Asking, HeldTicket, LoggedIn, LoginRefusal, opened_login};
pub use cx_stream::{
    Greeted, Greeting, Plain, SealedAhead, Sealing, Secure, SecureRefusal, StreamFault,
};

// Each public type may be sent to another thread and shared with one.
fn is_sendable<T: Send + Sync>() {}

fn all_are_sendable() {
    is_sendable::<Verdict>();
    is_sendable::<HandedOut>();
    is_sendable::<Body<Demand>>();
    is_sendable::<(Want, Waiting)>();
    is_sendable::<Taken>();
    is_sendable::<Bearer>();
    is_sendable::<ReplyMade>();
    is_sendable::<Response>();
}

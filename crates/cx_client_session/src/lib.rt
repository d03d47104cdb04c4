//! A client's links to daemons from the daemon's signature until they are open: a session is opened, taken up again or reset.
//! A client's open links to daemons, on which operations are sent, answered and acknowledged; and a turn of a link to a daemon, whatever it waits for.
#![tactic(auto)]

mod calling_turns;
mod frames;
mod idents;
mod open;
mod operations_turns;
mod reconnects;
mod sending;
mod signatures;

pub use calling_turns::{ident_turn, reconnect_turn, signature_turn};
pub use frames::{Ahead, sent_row};
// What crates above name through this one, and so needn't list.
pub use cx_client_connect::{
    Callee, Change, HeldSession, Link, OperationEnd, SessionChange, Stage, banner_turn,
    challenge_turn, done_turn, end_in, handles, hello_turn,
};
pub use operations_turns::turned;
pub use sending::{go_on, sends};

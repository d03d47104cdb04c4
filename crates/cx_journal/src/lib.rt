//! The journal of a run: what happened at each node, one entry after the other, and its text.
#![tactic(auto)]

mod copies;
mod counts;
mod entries;
mod faults;
mod journals;
mod laws;
mod lines;
mod numbers;
mod outcomes;
mod premises;
mod ranks;
mod texts;
mod words;

pub use entries::{
    Admitted, Answered, Ended, Entry, Fetched, Handled, Issued, Looked, Refused, Sent,
};
pub use faults::{BytesFault, LoginFault, SessionFault};
pub use journals::Journal;
pub use laws::session_laws;
pub use outcomes::{Outcome, Reason, TicketFault};
pub use premises::{Broken, KeyKind, Premise};
pub use texts::put_text;

// What crates above name through this one, and so needn't list.
pub use cx_rotate::{BoxedState, KeptState, View};

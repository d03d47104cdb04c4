//! Each value that an entry of a run has, and that no type bounds, is within the bounds of the lines of a journal.
//! What a replay writes is legal to an auditor.
#![tactic(auto)]

mod entries_laws;
mod journals_laws;
mod replays;

pub use entries_laws::entered_laws;
pub use journals_laws::legal_laws;
pub use replays::audited_replay;

//! The summary of a journal, which a drill writes: how many entries of five kinds it has.
//! The top call: everything that the program does, over a source and a sink.
#![tactic(auto)]

mod audits;
mod commands;
mod drills;
mod input;
mod keyring;
mod notes;
mod program_end;
mod replay;
mod sentences;
mod status;
mod summaries;
mod told;
mod top;

pub use commands::Subcommand;
pub use drills::drill;
pub use input::{Unread, read_all};
pub use program_end::{ProgramEnd, StatusLine};
pub use status::Status;
pub use summaries::{Summary, summary_of};
pub use top::run;

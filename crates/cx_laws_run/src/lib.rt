//! Laws over every run: over every list of events of the nodes, from every opening, and so over every schedule.
//! What daemons handle is what clients sent, over every run: in order, each once.
//! What clients are told is so, over every run: how operations of their own ended, each once; and so all laws of a journal hold of it.
//! Of each front of a run that keeps both premises by its own log everything holds.
//! Coverage by time, over every run: how long a daemon holds the generation of each unexpired ticket of its service.
#![tactic(auto)]

mod answers_laws;
mod coverage_laws;
mod fronts_laws;
mod order_laws;
mod run_laws;

pub use answers_laws::{truth_laws, whole_laws};
pub use coverage_laws::cover_laws;
pub use cx_laws_sessions::session_laws;
pub use fronts_laws::front_laws;
pub use order_laws::sent_laws;
pub use run_laws::{journal_laws, login_laws, origin_laws, sending_laws, standing_laws};

//! What each row and each command of a client with links to daemons keeps of what is known of a run: lemmas for the laws over every run.
//! The generations of the services over every run.
//! By what a daemon admits a session.
//! Coverage by time: how long a daemon holds the generations of its service's unexpired tickets.
#![tactic(auto)]

mod authorizers_laws;
mod chains_laws;

pub use authorizers_laws::authorize_laws;
pub use chains_laws::chain_laws;

//! The rules of daemons and of sessions, as definitions.
#![tactic(auto)]

mod answers;
mod laws;

pub use answers::{authorizing_laws, fetching_laws, hosting_laws, sending_laws};
pub use laws::{client_forgetting_laws, daemon_forgetting_laws};

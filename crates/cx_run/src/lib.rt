//! The run of a schedule, as a definition.
#![tactic(auto)]

mod laws;
mod points;

pub use laws::{client_laws, run_laws, sending_laws, turning_laws, visit_laws};
pub use points::point_laws;

//! What is due of a client or a daemon is done: each turn of an exchange hands the link on, and the whole node carries it on.
#![tactic(auto)]

mod laws;

pub use laws::{calling_laws, incoming_laws, lifting_laws};

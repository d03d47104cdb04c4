//! Laws of the sessions that a journal shows: in which of them operations are handled, and how they end.
//! Laws of what clients send in a session and daemons handle in one: in order, each once.
//! Laws of what waits at clients: nothing is forgotten but what was acknowledged, and all that waits is sent again.
#![tactic(auto)]

mod queues_laws;
mod sessions_laws;
mod waits_laws;

pub use queues_laws::queue_laws;
pub use sessions_laws::session_laws;
pub use waits_laws::waiting_laws;

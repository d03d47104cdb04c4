//! What the lines of a journal tell of its entries keeps the laws that the entries keep.
//! The text of a journal, read again: it says what is told of its entries, and nothing else.
#![tactic(auto)]

mod lines_laws;
mod prints_laws;
mod types;

pub use lines_laws::told_laws;
pub use prints_laws::printed_laws;
pub use types::have_types;

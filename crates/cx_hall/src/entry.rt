//! An entry of a hall's history.

use cx_session::{BookCall, BookReply};

/// A call that was made, its answer, and the number of the pass that made it. It stands in proofs alone; no value of it is made.
pub struct HallEntry<O> {
    pub by: u64,
    pub call: BookCall<O>,
    pub reply: BookReply,
}

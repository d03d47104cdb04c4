//! What a turn comes to.

use crate::steps_rows::NodeRow;
use cx_base::Items;
use cx_journal::BytesFault;
use cx_steps::SealEntry;

/// What a turn of a link comes to: nothing where not all of a banner or frame is there; a refusal, which handles nothing; or a row.
#[derive(Drop)]
pub enum Came<L, C> {
    /// The link as it was.
    Waits(L),
    /// Why, and what opened before.
    Refuses(BytesFault, Items<SealEntry>),
    Handles(NodeRow<L, C>),
}

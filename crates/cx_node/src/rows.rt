//! What one row says of the link on which something came.

use cx_base::{Blob, Items};
use cx_journal::Entry;
use cx_rotate::BoxedState;
use cx_steps::SealEntry;

/// What a row says: the link as it goes on, or none where it is shut; the bytes that are sent on it; the state that is saved; and what
/// is entered in the journal and the log.
#[derive(Drop)]
pub struct Row<L> {
    pub link: Option<L>,
    pub sends: Blob,
    pub save: Option<BoxedState>,
    pub entries: Items<Entry>,
    pub seals: Items<SealEntry>,
}

//! Sealed records with their contents.

use cx_base::Blob;

/// A record as it was sealed: its content, and the envelope of that.
#[derive(PartialEq, Eq, Drop)]
pub struct SealedRecord {
    pub content: Blob,
    pub envelope: Blob,
}

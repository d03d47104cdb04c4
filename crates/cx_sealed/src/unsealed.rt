//! What sealed bytes open to.

use cx_base::Blob;

/// What sealed bytes opened to: the content, and the record that it spells, where it spells one.
#[derive(PartialEq, Eq, Drop)]
pub struct Unsealed<X> {
    pub content: Blob,
    pub value: Option<X>,
}

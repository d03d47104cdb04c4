//! What a line of a keyring says.

use cx_base::{EntityName, EntityType, Text};
use cx_enc::Key;

/// What one line says by itself: which form it has, with its parts as far as they can be read.
#[derive(Drop)]
pub enum Line {
    /// Nothing, or a comment.
    Skipped,
    /// `[NAME]`.
    Section(Option<EntityName>),
    /// `key = TEXT`.
    Key(Option<Key>),
    /// `caps SERVICE = TEXT`.
    Caps(Option<EntityType>, Option<Text>),
    /// Anything else.
    Other,
}

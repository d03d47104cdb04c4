//! How many entries a keyring that is read may have.

/// A keyring that is read has at most so many entries.
pub const MOST_ENTRIES: usize = 4096;

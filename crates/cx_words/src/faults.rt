//! What can be wrong with a line, and at which word.

/// Why words are no line. Where several hold, a line has the first of them.
#[derive(Clone, Copy, Debug, PartialEq, Eq)]
pub enum LineFault {
    /// The first word begins no line.
    UnknownWord,
    /// A word is missing.
    Missing,
    /// There is a word too many.
    Extra,
    /// A word is no number or reading of its place.
    BadNumber,
    /// A word is no name of an entity.
    BadName,
    /// A word is no other value of its place.
    BadText,
    /// A name isn't of the type of its place, or no earlier line declares it.
    UnknownNode,
    /// What may stand once stands a second time.
    Repeated,
    /// A head line stands behind a line that is none.
    Order,
}

/// The first fault of a line, and the word that has it.
#[derive(Clone, Copy, Debug, PartialEq, Eq)]
pub struct FaultAt {
    pub why: LineFault,
    /// The number, from 1, of the first word from the left that has the fault. Where words are missing, how many the line
    /// must have.
    pub word: usize,
}

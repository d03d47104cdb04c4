//! What stands at which place of a journal's line, and what is counted of the lines above it.

/// The kind of value that stands at a place of a line.
#[derive(Clone, Copy, Debug, PartialEq, Eq)]
pub enum JournalPlace {
    /// A number below 2^64.
    Number,
    /// A number below 2^32.
    Short,
    /// A number below 256.
    Byte,
    /// The number of the ticket that is issued next.
    Next,
    /// A reading of a clock.
    Reading,
    /// The reading at which a view was asked for, or `-`.
    Asked,
    /// The name of an entity.
    Entity,
    /// The monitor, or an entity.
    Node,
    /// A type of entities.
    Type,
    /// A capability text.
    Caps,
    /// The ids of three generations, or `-`.
    Ids,
    /// A cookie: one that stands above, or the next one.
    Cookie,
    /// What an operation asks to do.
    Access,
    /// A pool, a namespace or an object.
    Part,
    /// The data of an operation.
    Data,
    /// How an operation ended.
    Outcome,
    /// A premise of a run.
    Premise,
    /// A kind of key.
    KeyKind,
    /// The first word of a reason.
    Reason,
    /// The number of links that a node has places for.
    Full,
    /// The number of sessions that a book has places for.
    FullBook,
    /// The number of the refused ticket.
    Ticket,
    /// What an administrator asks.
    Verb,
    /// How the monitor answered an administrator.
    AdminOutcome,
}

/// What is counted of the lines above: how many tickets they issue, and how many different cookies they have.
#[derive(Clone, Copy, Debug, PartialEq, Eq)]
pub struct CountedAbove {
    pub issued: u64,
    pub cookies: u64,
}

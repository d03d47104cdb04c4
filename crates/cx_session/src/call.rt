//! What a book is asked, and what it answers, as values.

use cx_base::EntityName;
use thiserror::Error;

/// A call of a book with its arguments.
#[derive(Drop)]
pub enum BookCall<O> {
    Admit {
        owner: O,
        client_cookie: u64,
        server_cookie: u64,
        global_seq: u64,
        lossy: bool,
    },
    Resume {
        owner: O,
        client_cookie: u64,
        server_cookie: u64,
        global_seq: u64,
        connect_seq: u64,
    },
    Check {
        number: u64,
        epoch: u64,
        seq: u64,
    },
    Take {
        number: u64,
        epoch: u64,
        seq: u64,
    },
    End {
        number: u64,
    },
}

/// The answer to a call of a book.
#[derive(Debug, PartialEq, Eq, Drop)]
pub enum BookReply {
    /// A session was admitted.
    Admitted {
        number: u64,
        epoch: u64,
    },
    /// A session was resumed.
    Resumed {
        number: u64,
        epoch: u64,
        last: u64,
        lossy: bool,
    },
    /// The message is the next one.
    Fine,
    /// Whether the session lived.
    Ended(bool),
    /// The call was refused.
    Refused(BookFault),
    /// Memory was wanting.
    OutOfMemory,
}

/// Why a book refuses a call: the causes of `AdmitFault`, `ResumeFault` and `TakeRefusal`, but for want of memory.
#[derive(Debug, PartialEq, Eq, Drop, Error)]
pub enum BookFault {
    #[error("session {number} has this client cookie")]
    CookieInUse { number: u64 },
    #[error("{limit} sessions live")]
    BookFull { limit: u32 },
    #[error("no number is left")]
    Spent,
    #[error("no session has these cookies")]
    Unknown,
    #[error("the session belongs to {entity} with global id {gid}")]
    OwnerDiffers { entity: EntityName, gid: u64 },
    #[error("the reconnection count must be above {kept}")]
    StaleConnect { kept: u64 },
    #[error("the connection count must be at least {kept}")]
    StaleGlobal { kept: u64 },
    #[error("the session has epoch {epoch}")]
    Stale { epoch: u64 },
    #[error("messages up to {last} were taken")]
    Repeat { last: u64 },
    #[error("message {expected} is due")]
    Gap { expected: u64 },
}

//! The log of what was sealed, opened, signed, found equal and drawn.

use cx_base::{Blob, Duplicate, EntityName, NodeName};
use cx_journal::KeyKind;
use std::alloc::{AllocError, Global};

/// Something under a key: the content of an envelope; of a part of a frame its nonce and its plain bytes; of a proof its 16
/// bytes; of a signature the bytes that it covers.
#[derive(Debug, PartialEq, Eq, Drop)]
pub struct SealMark {
    pub key: [u8; 16],
    pub kind: KeyKind,
    pub content: Blob,
}

impl Duplicate for SealMark {
    fn copy(&self, alloc: Global) -> Result<SealMark, AllocError> {
        let content = self.content.copy(alloc)?;
        Ok(SealMark {
            key: self.key,
            kind: self.kind,
            content,
        })
    }
}

/// A drawn value, and whom it is for where it is a key of one entity.
#[derive(Debug, PartialEq, Eq, Drop)]
pub enum DrawMark {
    /// An entity's own secret, which counts as drawn at the entity's line, before all events.
    Principal {
        secret: [u8; 16],
        for_whom: EntityName,
    },
    /// The key and the nonces of a connection, for the entity that logs in or whose ticket was opened.
    Connection {
        secret: [u8; 64],
        for_whom: EntityName,
    },
    /// The session key of a ticket, for the entity to which it is issued.
    Session {
        key: [u8; 16],
        for_whom: EntityName,
    },
    /// The key of a generation.
    Rotation([u8; 16]),
    Challenge(u64),
    Nonce(u64),
    Cookie(u64),
}

impl Duplicate for DrawMark {
    fn copy(&self, alloc: Global) -> Result<DrawMark, AllocError> {
        match self {
            DrawMark::Principal { secret, for_whom } => {
                let for_whom = for_whom.copy(alloc)?;
                Ok(DrawMark::Principal {
                    secret: *secret,
                    for_whom,
                })
            }
            DrawMark::Connection { secret, for_whom } => {
                let for_whom = for_whom.copy(alloc)?;
                Ok(DrawMark::Connection {
                    secret: *secret,
                    for_whom,
                })
            }
            DrawMark::Session { key, for_whom } => {
                let for_whom = for_whom.copy(alloc)?;
                Ok(DrawMark::Session {
                    key: *key,
                    for_whom,
                })
            }
            DrawMark::Rotation(key) => Ok(DrawMark::Rotation(*key)),
            DrawMark::Challenge(value) => Ok(DrawMark::Challenge(*value)),
            DrawMark::Nonce(value) => Ok(DrawMark::Nonce(*value)),
            DrawMark::Cookie(value) => Ok(DrawMark::Cookie(*value)),
        }
    }
}

/// What a step did with keys and draws.
#[derive(Debug, PartialEq, Eq, Drop)]
pub enum SealEntry {
    Sealed(SealMark),
    /// It opened, whether or not its content is the record that was due.
    Opened(SealMark),
    /// A proof or a signature was made.
    Signed(SealMark),
    /// A proof or a signature was found equal.
    Checked(SealMark),
    Drawn(DrawMark),
}

impl Duplicate for SealEntry {
    fn copy(&self, alloc: Global) -> Result<SealEntry, AllocError> {
        match self {
            SealEntry::Sealed(mark) => Ok(SealEntry::Sealed(mark.copy(alloc)?)),
            SealEntry::Opened(mark) => Ok(SealEntry::Opened(mark.copy(alloc)?)),
            SealEntry::Signed(mark) => Ok(SealEntry::Signed(mark.copy(alloc)?)),
            SealEntry::Checked(mark) => Ok(SealEntry::Checked(mark.copy(alloc)?)),
            SealEntry::Drawn(mark) => Ok(SealEntry::Drawn(mark.copy(alloc)?)),
        }
    }
}

/// A seal entry of a run: at which node, and at which line of the schedule.
#[derive(Debug, PartialEq, Eq, Drop)]
pub struct Logged {
    pub node: NodeName,
    pub line: u32,
    pub entry: SealEntry,
}

impl Duplicate for Logged {
    fn copy(&self, alloc: Global) -> Result<Logged, AllocError> {
        let node = self.node.copy(alloc)?;
        let entry = self.entry.copy(alloc)?;
        Ok(Logged {
            node,
            line: self.line,
            entry,
        })
    }
}

//! What was wrong with the bytes of a link, with a login or with a session.

ghost use Rattle.std.specs.Prelude.{◌≡◌, None};
ghost use Rattle.cx_journal.specs.Numbered.{numbered, bytes_number, login_numbers, session_number, IsSessionFault};
ghost use Rattle.cx_journal.specs.Words.{bytes_fault_text, login_fault_text};

use crate::words::put_numbered;
use cx_base::{Duplicate, EntityName};
use std::alloc::{AllocError, Global};
use std::fmt;

/// What came on a link is no banner, frame or payload, or none that is due.
#[derive(Clone, Copy, PartialEq, Eq)]
pub enum BytesFault {
    BadBanner,
    /// The peer requires features that aren't had, or lacks one that is required; these are their bits.
    Features(u64),
    BadCrc,
    BadShape,
    TooLong,
    BadTag,
    Aborted,
    /// The counter of this direction is at its last value.
    CounterSpent,
    /// No frame of this tag, or no message, is due.
    Unexpected(u8),
    /// The payload can't be read; this is the place of the first field that can't, or of the first byte left over.
    Malformed(usize),
}

impl BytesFault {
    fn word(&self) -> &'static str
        ensures { numbered result.now (bytes_number self.now) None ≡ bytes_fault_text self.now }
    {
        match self {
            BytesFault::BadBanner => "bad-banner",
            BytesFault::Features(_) => "features",
            BytesFault::BadCrc => "bad-crc",
            BytesFault::BadShape => "bad-shape",
            BytesFault::TooLong => "too-long",
            BytesFault::BadTag => "bad-tag",
            BytesFault::Aborted => "aborted",
            BytesFault::CounterSpent => "counter-spent",
            BytesFault::Unexpected(_) => "unexpected",
            BytesFault::Malformed(_) => "malformed",
        }
    }

    fn number(&self) -> Option<u64>
        ensures { result ≡ bytes_number self.now }
    {
        match self {
            BytesFault::Features(bits) => Some(*bits),
            BytesFault::Unexpected(tag) => Some(u64::from(*tag)),
            BytesFault::Malformed(place) => Some(*place as u64),
            _ => None,
        }
    }
}

impl fmt::Display for BytesFault {
    ghost use Rattle.std.specs.Prelude.{Some};
    ghost use Rattle.cx_journal.specs.Words.{bytes_fault_text};

    ghost output = { λ fault. Some (bytes_fault_text fault) };

    fn fmt<W: fmt::Write>(&self, f: &mut fmt::Formatter<W>) -> fmt::Result {
        put_numbered(f, self.word(), self.number(), None)
    }
}

impl fmt::Debug for BytesFault {
    fn fmt<W: fmt::Write>(&self, f: &mut fmt::Formatter<W>) -> fmt::Result {
        fmt::Display::fmt(self, f)
    }
}

/// Why an acceptor denied a login, or one of its ends went no further with it.
#[derive(Clone, Copy, PartialEq, Eq)]
pub enum LoginFault {
    /// The method isn't cephx.
    Method,
    /// The secure mode isn't offered, or another one was chosen.
    Mode,
    /// No entity of this name is in the keyring.
    UnknownEntity,
    WrongProof,
    /// The client means to keep this global id, and the monitor doesn't.
    Reclaim(u64),
    GidsSpent,
    /// A service has no unexpired current generation.
    IdsSpent,
    SignatureWrong,
    /// A sealed part opens in no spelling of its record.
    Unopened,
    /// The acceptor's reply isn't the nonce plus one.
    NonceWrong { expected: u64, got: u64 },
}

impl LoginFault {
    fn word(&self) -> &'static str
        ensures { numbered result.now (login_numbers self.now).0 (login_numbers self.now).1 ≡ login_fault_text self.now }
    {
        match self {
            LoginFault::Method => "method",
            LoginFault::Mode => "mode",
            LoginFault::UnknownEntity => "unknown-entity",
            LoginFault::WrongProof => "wrong-proof",
            LoginFault::Reclaim(_) => "reclaim",
            LoginFault::GidsSpent => "gids-spent",
            LoginFault::IdsSpent => "ids-spent",
            LoginFault::SignatureWrong => "signature-wrong",
            LoginFault::Unopened => "unopened",
            LoginFault::NonceWrong { .. } => "nonce-wrong",
        }
    }

    fn numbers(&self) -> (Option<u64>, Option<u64>)
        ensures { result ≡ login_numbers self.now }
    {
        match self {
            LoginFault::Reclaim(gid) => (Some(*gid), None),
            LoginFault::NonceWrong { expected, got } => (Some(*expected), Some(*got)),
            _ => (None, None),
        }
    }
}

impl fmt::Display for LoginFault {
    ghost use Rattle.std.specs.Prelude.{Some};
    ghost use Rattle.cx_journal.specs.Words.{login_fault_text};

    ghost output = { λ fault. Some (login_fault_text fault) };

    fn fmt<W: fmt::Write>(&self, f: &mut fmt::Formatter<W>) -> fmt::Result {
        let (first, second) = self.numbers();
        put_numbered(f, self.word(), first, second)
    }
}

impl fmt::Debug for LoginFault {
    fn fmt<W: fmt::Write>(&self, f: &mut fmt::Formatter<W>) -> fmt::Result {
        fmt::Display::fmt(self, f)
    }
}

/// Why a daemon took no session or no message of one.
#[derive(PartialEq, Eq, Drop)]
pub enum SessionFault {
    /// As many sessions live as a daemon has places.
    BookFull,
    /// The live session of this number has the client's cookie.
    CookieInUse(u64),
    UnknownSession,
    /// The session belongs to this entity, under this global id.
    OwnerDiffers { entity: EntityName, gid: u64 },
    /// The count of reconnections isn't above this one.
    StaleConnect(u64),
    /// The count of connections is below this one.
    StaleGlobal(u64),
    /// The message of this seq is due.
    Gap(u64),
    /// The session has this epoch, or doesn't live, at 0.
    Stale(u64),
}

impl SessionFault {
    // The first word alone, where the text has a name.
    fn word(&self) -> &'static str
        ensures { IsSessionFault self.now (numbered result.now (session_number self.now) None) }
    {
        match self {
            SessionFault::BookFull => "book-full 4096",
            SessionFault::CookieInUse(_) => "cookie-in-use",
            SessionFault::UnknownSession => "unknown-session",
            SessionFault::OwnerDiffers { .. } => "owner-differs",
            SessionFault::StaleConnect(_) => "stale-connect",
            SessionFault::StaleGlobal(_) => "stale-global",
            SessionFault::Gap(_) => "gap",
            SessionFault::Stale(_) => "stale",
        }
    }

    fn number(&self) -> Option<u64>
        ensures { result ≡ session_number self.now }
    {
        match self {
            SessionFault::CookieInUse(session) => Some(*session),
            SessionFault::StaleConnect(kept) => Some(*kept),
            SessionFault::StaleGlobal(kept) => Some(*kept),
            SessionFault::Gap(expected) => Some(*expected),
            SessionFault::Stale(epoch) => Some(*epoch),
            _ => None,
        }
    }
}

impl fmt::Display for SessionFault {
    ghost use Rattle.std.specs.Prelude.{Some};
    ghost use Rattle.cx_journal.specs.Words.{session_fault_text};

    ghost output = { λ fault. Some (session_fault_text fault) };

    fn fmt<W: fmt::Write>(&self, f: &mut fmt::Formatter<W>) -> fmt::Result {
        match self {
            SessionFault::OwnerDiffers { entity, gid } => {
                write!(f, "owner-differs {} {}", entity, *gid)
            }
            _ => put_numbered(f, self.word(), self.number(), None),
        }
    }
}

impl fmt::Debug for SessionFault {
    fn fmt<W: fmt::Write>(&self, f: &mut fmt::Formatter<W>) -> fmt::Result {
        fmt::Display::fmt(self, f)
    }
}

impl Duplicate for SessionFault {
    fn copy(&self, alloc: Global) -> Result<SessionFault, AllocError> {
        match self {
            SessionFault::BookFull => Ok(SessionFault::BookFull),
            SessionFault::CookieInUse(session) => Ok(SessionFault::CookieInUse(*session)),
            SessionFault::UnknownSession => Ok(SessionFault::UnknownSession),
            SessionFault::OwnerDiffers { entity, gid } => {
                let copied = entity.copy(alloc)?;
                Ok(SessionFault::OwnerDiffers {
                    entity: copied,
                    gid: *gid,
                })
            }
            SessionFault::StaleConnect(kept) => Ok(SessionFault::StaleConnect(*kept)),
            SessionFault::StaleGlobal(kept) => Ok(SessionFault::StaleGlobal(*kept)),
            SessionFault::Gap(expected) => Ok(SessionFault::Gap(*expected)),
            SessionFault::Stale(epoch) => Ok(SessionFault::Stale(*epoch)),
        }
    }
}

//! How an operation ended, and why something was refused.

ghost use Rattle.std.specs.Prelude.{◌≡◌};
ghost use Rattle.cx_journal.specs.Numbered.{numbered, ticket_numbers, IsTicketFault, IsReason};
ghost use Rattle.cx_journal.specs.Words.{outcome_word};

use crate::faults::{BytesFault, LoginFault, SessionFault};
use crate::words::{Seconds, put_numbered};
use cx_base::{Blob, EntityType, Reading};
use std::fmt;

/// How a daemon answered an operation.
#[derive(Clone, Copy, PartialEq, Eq)]
pub enum Outcome {
    Done,
    Denied,
    NoHandler,
}

impl Outcome {
    fn word(self) -> &'static str
        ensures { result.now ≡ outcome_word self }
    {
        match self {
            Outcome::Done => "done",
            Outcome::Denied => "denied",
            Outcome::NoHandler => "no-handler",
        }
    }
}

impl fmt::Display for Outcome {
    ghost use Rattle.std.specs.Prelude.{Some};
    ghost use Rattle.cx_journal.specs.Words.{outcome_word};

    ghost output = { λ outcome. Some (outcome_word outcome) };

    fn fmt<W: fmt::Write>(&self, f: &mut fmt::Formatter<W>) -> fmt::Result {
        f.write_str(self.word())
    }
}

impl fmt::Debug for Outcome {
    fn fmt<W: fmt::Write>(&self, f: &mut fmt::Formatter<W>) -> fmt::Result {
        f.write_str(self.word())
    }
}

/// Why a daemon refused a ticket, or the authorizer that came with it.
#[derive(Clone, Copy, PartialEq, Eq)]
pub enum TicketFault {
    /// The daemon's view lacks the ticket's generation, whose id this is.
    UnknownGeneration(u64),
    /// The blob opens as no ticket under the generation of this id.
    TicketUnopened(u64),
    /// The authorizer claims another global id than the ticket was sealed for.
    GidDiffers { claimed: u64, sealed: u64 },
    /// The ticket expires at the first reading, and the second, at which it was shown, is not before it.
    Expired(Reading, Reading),
    /// The sealed part opens as no authorizer under the ticket's session key.
    AuthorizerUnopened,
    /// The authorizer doesn't hold the daemon's challenge plus one.
    ChallengeWrong { expected: u64, got: u64 },
}

impl TicketFault {
    // The first word alone, where the text has readings.
    fn word(&self) -> &'static str
        ensures { IsTicketFault self.now (numbered result.now (ticket_numbers self.now).0 (ticket_numbers self.now).1) }
    {
        match self {
            TicketFault::UnknownGeneration(_) => "unknown-generation",
            TicketFault::TicketUnopened(_) => "ticket-unopened",
            TicketFault::GidDiffers { .. } => "gid-differs",
            TicketFault::Expired(..) => "expired",
            TicketFault::AuthorizerUnopened => "authorizer-unopened",
            TicketFault::ChallengeWrong { .. } => "challenge-wrong",
        }
    }

    fn numbers(&self) -> (Option<u64>, Option<u64>)
        ensures { result ≡ ticket_numbers self.now }
    {
        match self {
            TicketFault::UnknownGeneration(id) => (Some(*id), None),
            TicketFault::TicketUnopened(id) => (Some(*id), None),
            TicketFault::GidDiffers { claimed, sealed } => (Some(*claimed), Some(*sealed)),
            TicketFault::ChallengeWrong { expected, got } => (Some(*expected), Some(*got)),
            _ => (None, None),
        }
    }
}

impl fmt::Display for TicketFault {
    ghost use Rattle.std.specs.Prelude.{Some};
    ghost use Rattle.cx_journal.specs.Words.{ticket_fault_text};

    ghost output = { λ fault. Some (ticket_fault_text fault) };

    fn fmt<W: fmt::Write>(&self, f: &mut fmt::Formatter<W>) -> fmt::Result {
        match self {
            TicketFault::Expired(expires, now) => {
                write!(f, "expired {} {}", Seconds(*expires), Seconds(*now))
            }
            _ => {
                let (first, second) = self.numbers();
                put_numbered(f, self.word(), first, second)
            }
        }
    }
}

impl fmt::Debug for TicketFault {
    fn fmt<W: fmt::Write>(&self, f: &mut fmt::Formatter<W>) -> fmt::Result {
        fmt::Display::fmt(self, f)
    }
}

/// Why something was refused, with what the journal says of it.
#[derive(PartialEq, Eq, Drop)]
pub enum Reason {
    Bytes(BytesFault),
    /// As many links live as a node has places.
    LinksFull,
    Login(LoginFault),
    /// The entity that asks for rotating secrets is no daemon.
    NotADaemon,
    /// The monitor got a request of another code or type.
    BadRequest,
    /// The reply answers no request that waits, or is of another code.
    BadReply,
    /// The acceptor denied the client with this code.
    Denied(u32),
    /// The daemon forgot the session.
    Reset,
    /// The link was gone before it was open.
    Lost,
    /// The client holds no ticket of this service.
    NoTicket(EntityType),
    /// The client has no session with that daemon, or no open link to the monitor.
    NoSession,
    /// No link could be opened.
    NoLink,
    /// The client has a link or a session with that daemon already.
    Busy,
    /// As many operations wait as an outbox has places.
    QueueFull,
    /// A count is at its last value.
    Spent,
    Session(SessionFault),
    /// The acceptor is of the kept type, and the authorizer is for the other.
    WrongService { kept: EntityType, got: EntityType },
    /// The daemon refused the ticket of this blob.
    Ticket(TicketFault, Blob),
}

impl Reason {
    // Nothing where the text is a fault's, or has words that differ.
    fn word(&self) -> &'static str
        ensures { IsReason self.now result.now }
    {
        match self {
            Reason::LinksFull => "links-full 1024",
            Reason::NotADaemon => "not-a-daemon",
            Reason::BadRequest => "bad-request",
            Reason::BadReply => "bad-reply",
            Reason::Reset => "reset",
            Reason::Lost => "lost",
            Reason::NoSession => "no-session",
            Reason::NoLink => "no-link",
            Reason::Busy => "busy",
            Reason::QueueFull => "queue-full 1024",
            Reason::Spent => "spent",
            _ => "",
        }
    }
}

/// The words of the reason, without the number of a ticket, which the entries before it tell.
impl fmt::Display for Reason {
    ghost use Rattle.std.specs.Prelude.{Some};
    ghost use Rattle.cx_journal.specs.Words.{reason_text};

    ghost output = { λ reason. Some (reason_text reason) };

    fn fmt<W: fmt::Write>(&self, f: &mut fmt::Formatter<W>) -> fmt::Result {
        match self {
            Reason::Bytes(fault) => fmt::Display::fmt(fault, f),
            Reason::Login(fault) => fmt::Display::fmt(fault, f),
            Reason::Denied(code) => put_numbered(f, "denied", Some(u64::from(*code)), None),
            Reason::NoTicket(service) => write!(f, "no-ticket {}", *service),
            Reason::Session(fault) => fmt::Display::fmt(fault, f),
            Reason::WrongService { kept, got } => write!(f, "wrong-service {} {}", *kept, *got),
            Reason::Ticket(fault, _) => fmt::Display::fmt(fault, f),
            _ => f.write_str(self.word()),
        }
    }
}

impl fmt::Debug for Reason {
    fn fmt<W: fmt::Write>(&self, f: &mut fmt::Formatter<W>) -> fmt::Result {
        fmt::Display::fmt(self, f)
    }
}

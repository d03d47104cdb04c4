//! Messages that wait for a reply of the book.

ghost use Rattle.std.specs.Prelude.{◌≡◌};
ghost use Rattle.cx_daemon_session.specs.cx_authorize.specs.Daemon.{Authority};
ghost use Rattle.cx_session.specs.declared.call.BookCall.TheVariants.{Check, Take};

use crate::instructions::Instruction;
use crate::{Link, Served, SessionOwner};
use cx_base::Items;
use cx_link::SecureLink;
use cx_node::Came;
use cx_session::BookCall;
use cx_steps::SealEntry;

/// A message of which the book has still to say whether it is the next one of its session: the link behind it, what is kept of the session, the
/// operation, and what opened of the frame.
#[derive(Drop)]
pub struct Checking {
    pub(crate) link: SecureLink,
    pub(crate) served: Served,
    pub(crate) instruction: Instruction,
    pub(crate) opened: Items<SealEntry>,
}

impl Checking {
    /// What the book is asked.
    pub fn call(&self) -> BookCall<SessionOwner>
        ensures { result ≡ Check self.now.served.number self.now.served.epoch self.now.instruction.seq }
    {
        BookCall::Check {
            number: self.served.number,
            epoch: self.served.epoch,
            seq: self.instruction.seq,
        }
    }
}

/// The next message of its session, which the book has still to take.
#[derive(Drop)]
pub struct Taking {
    pub(crate) link: SecureLink,
    pub(crate) served: Served,
    pub(crate) instruction: Instruction,
    pub(crate) opened: Items<SealEntry>,
}

impl Taking {
    /// What the book is asked, and what changes it.
    pub fn call(&self) -> BookCall<SessionOwner>
        ensures { result ≡ Take self.now.served.number self.now.served.epoch self.now.instruction.seq }
    {
        BookCall::Take {
            number: self.served.number,
            epoch: self.served.epoch,
            seq: self.instruction.seq,
        }
    }
}

/// What a turn of an open link comes to before the book is asked: it is done, or a message is to be checked.
#[derive(Drop)]
pub enum OpenTurn {
    Done(Came<Link, ()>),
    Checks(Checking),
}

/// What a message comes to that was checked: its turn is done, or it is to be taken.
#[derive(Drop)]
pub enum CheckedTurn {
    Done(Came<Link, ()>),
    Takes(Taking),
}

//! Idents and reconnections that wait for a reply of the book.

ghost use Rattle.std.specs.Prelude.{◌≡◌};
ghost use Rattle.cx_daemon_session.specs.cx_authorize.specs.Daemon.{Authority};

use crate::{Link, SessionOwner};
use cx_base::Items;
use cx_control::{ClientIdent, SessionReconnect};
use cx_link::SecureLink;
use cx_node::Came;
use cx_session::BookCall;
use cx_steps::SealEntry;

/// A CLIENT_IDENT of which the book has still to say whether its session is admitted: the link behind it, what opened of the frame, and the call, which
/// holds whose session it would be.
#[derive(Drop)]
pub struct Admitting {
    pub(crate) link: SecureLink,
    pub(crate) ident: ClientIdent,
    pub(crate) opened: Items<SealEntry>,
    pub(crate) call: BookCall<SessionOwner>,
}

impl Admitting {
    /// What the book is asked, and what changes it.
    pub fn call(&self) -> &BookCall<SessionOwner>
        ensures { result.now ≡ self.now.call }
    {
        &self.call
    }
}

/// A SESSION_RECONNECT of which the book has still to say whether its session is resumed, likewise.
#[derive(Drop)]
pub struct Resuming {
    pub(crate) link: SecureLink,
    pub(crate) reconnect: SessionReconnect,
    pub(crate) opened: Items<SealEntry>,
    pub(crate) call: BookCall<SessionOwner>,
}

impl Resuming {
    /// What the book is asked, and what changes it where the session is resumed.
    pub fn call(&self) -> &BookCall<SessionOwner>
        ensures { result.now ≡ self.now.call }
    {
        &self.call
    }
}

/// What a turn of a link comes to whose peer has signed, before the book is asked: it is done, or the book is asked for a session.
#[derive(Drop)]
pub enum IdentTurn {
    Done(Came<Link, ()>),
    Admits(Admitting),
    Resumes(Resuming),
}

/// A turn that is done by the book's reply to an admission, and the call, by which the book is changed last.
#[derive(Drop)]
pub struct AdmittedTurn {
    pub came: Came<Link, ()>,
    pub call: BookCall<SessionOwner>,
}

/// A turn that is done by the book's reply to a resumption: the session that moved to this link, whose other links are to be shut, and the call, by
/// which the book is changed last; neither where it isn't resumed.
#[derive(Drop)]
pub struct ResumedTurn {
    pub came: Came<Link, ()>,
    pub moved: Option<u64>,
    pub call: Option<BookCall<SessionOwner>>,
}

//! What a book answers. Each reply has one path, which a call and its value share.

ghost use Rattle.std.specs.Prelude.{◌≡◌, ◌+◌, ◌^◌, ◌<◌, IfOk, IfErr, IfNone, IfSome, OnOk, Ok, Some, IsSome, IsErr, IsFalse, is_some};
ghost use Rattle.cx_session.specs.Book.{with_number, admit_reply, take_reply, resume_reply, resumption, same_owner};
ghost use Rattle.cx_session.specs.Answers.{admission_reply, resumption_reply, refused_resumption, message_reply, replied, IsReply, IsResumeCause};

use crate::book::SessionBook;
use crate::call::{BookCall, BookFault, BookReply};
use crate::faults::{AdmitFault, ResumeFault, TakeRefusal};
use crate::session::Session;
use cx_base::{Duplicate, Owner};
use std::alloc::Global;

/// How many sessions may live.
const LIMIT: usize = 4096;

impl<O: Owner> SessionBook<O> {
    /// What this call would answer. Memory may be wanting for the name of an owner alone.
    pub fn reply(&self, alloc: Global, call: &BookCall<O>) -> BookReply
        ensures { IsReply (replied O.entity_of O.gid_of self.now.book call.now) result }
    {
        match call {
            BookCall::Admit { client_cookie, .. } => {
                admission_reply(self.admit_reply(*client_cookie))
            }
            BookCall::Resume {
                owner,
                client_cookie,
                server_cookie,
                global_seq,
                connect_seq,
            } => resumption_reply(self.resume_reply(
                alloc,
                owner,
                *client_cookie,
                *server_cookie,
                *global_seq,
                *connect_seq,
            )),
            BookCall::Check { number, epoch, seq } => {
                message_reply(self.check(*number, *epoch, *seq))
            }
            BookCall::Take { number, epoch, seq } => {
                message_reply(self.check(*number, *epoch, *seq))
            }
            BookCall::End { number } => BookReply::Ended(self.is_live(*number)),
        }
    }

    /// What an admission would answer.
    pub fn admit_reply(&self, client_cookie: u64) -> Result<(u64, u64), AdmitFault>
        ensures { result ≡ admit_reply self.now.book client_cookie }
    {
        if let Some(session) = self.session_of_client(client_cookie) {
            return Err(AdmitFault::CookieInUse {
                number: session.number,
            });
        }
        if self.count() >= LIMIT {
            return Err(AdmitFault::BookFull { limit: 4096 });
        }
        if self.next == u64::MAX {
            return Err(AdmitFault::Spent);
        }
        Ok((self.next, 1))
    }

    /// What a resumption would answer.
    pub fn resume_reply(
        &self,
        alloc: Global,
        owner: &O,
        client_cookie: u64,
        server_cookie: u64,
        global_seq: u64,
        connect_seq: u64,
    ) -> Result<(u64, u64, u64, bool), ResumeFault>
        ensures ok { IfOk result (λ given. resume_reply O.entity_of O.gid_of self.now.book owner.now client_cookie server_cookie global_seq connect_seq ≡ Ok given) }
        ensures cause { IfErr result (IsResumeCause (resume_reply O.entity_of O.gid_of self.now.book owner.now client_cookie server_cookie global_seq connect_seq)) }
    {
        match self.session_of(client_cookie, server_cookie) {
            None => Err(ResumeFault::Unknown),
            Some(session) => resumption(alloc, session, owner, global_seq, connect_seq),
        }
    }

    // What a resumption would answer that is not refused.
    pub(crate) fn resumable(
        &self,
        owner: &O,
        client_cookie: u64,
        server_cookie: u64,
        global_seq: u64,
        connect_seq: u64,
    ) -> Option<(u64, u64, u64, bool)>
        ensures some { IfSome result (λ given. resume_reply O.entity_of O.gid_of self.now.book owner.now client_cookie server_cookie global_seq connect_seq ≡ Ok given) }
        ensures none { IfNone result (IsErr (resume_reply O.entity_of O.gid_of self.now.book owner.now client_cookie server_cookie global_seq connect_seq)) }
        ensures lives { IfSome result (λ given. IsSome (with_number given.0 self.now.book.live)) }
        ensures epoch { IfSome result (λ given. IfSome (with_number given.0 self.now.book.live) (λ s. s.epoch + 1 < 2 ^ 64)) }
    {
        match self.session_of(client_cookie, server_cookie) {
            None => None,
            Some(session) => match own_resumption(session, owner, global_seq, connect_seq) {
                Some(Ok(given)) => Some(given),
                Some(Err(_)) => None,
                None => None,
            },
        }
    }

    /// What a message with this epoch and sequence number is answered.
    pub fn check(&self, number: u64, epoch: u64, seq: u64) -> Result<(), TakeRefusal>
        ensures { result ≡ take_reply self.now.book number epoch seq }
    {
        let Some(session) = self.session(number) else {
            return Err(TakeRefusal::Stale { epoch: 0 });
        };
        if session.epoch != epoch {
            return Err(TakeRefusal::Stale {
                epoch: session.epoch,
            });
        }
        if seq <= session.last {
            return Err(TakeRefusal::Repeat { last: session.last });
        }
        if seq > session.last + 1 {
            return Err(TakeRefusal::Gap {
                expected: session.last + 1,
            });
        }
        Ok(())
    }

    // Whether the session with this number lives.
    pub(crate) fn is_live(&self, number: u64) -> bool
        ensures { result ≡ is_some (with_number number self.now.book.live) }
    {
        match self.session(number) {
            None => false,
            Some(_) => true,
        }
    }
}

// What an owner is answered who would resume this session.
fn resumption<O: Owner>(
    alloc: Global,
    session: &Session<O>,
    owner: &O,
    global_seq: u64,
    connect_seq: u64,
) -> Result<(u64, u64, u64, bool), ResumeFault>
    ensures ok { IfOk result (λ given. resumption O.entity_of O.gid_of (Some session.now) owner.now global_seq connect_seq ≡ Ok given) }
    ensures cause { IfErr result (IsResumeCause (resumption O.entity_of O.gid_of (Some session.now) owner.now global_seq connect_seq)) }
{
    match own_resumption(session, owner, global_seq, connect_seq) {
        Some(reply) => reply,
        None => {
            let entity = session.owner.entity().copy(alloc)?;
            Err(ResumeFault::OwnerDiffers {
                entity,
                gid: session.owner.gid(),
            })
        }
    }
}

// What the owner of this session is answered who would resume it; nothing where it is another's.
fn own_resumption<O: Owner>(
    session: &Session<O>,
    owner: &O,
    global_seq: u64,
    connect_seq: u64,
) -> Option<Result<(u64, u64, u64, bool), ResumeFault>>
    ensures own { IfSome result (λ reply. reply ≡ resumption O.entity_of O.gid_of (Some session.now) owner.now global_seq connect_seq) }
    ensures other { IfNone result (IsFalse (same_owner O.entity_of O.gid_of session.now.owner owner.now)) }
    ensures number { IfSome result (λ reply. IfOk reply (λ given. given.0 ≡ session.now.number)) }
    ensures epoch { IfSome result (λ reply. OnOk reply (session.now.epoch + 1 < 2 ^ 64)) }
{
    if !is_same_owner(&session.owner, owner) {
        return None;
    }
    if connect_seq <= session.connect_seq {
        return Some(Err(ResumeFault::StaleConnect {
            kept: session.connect_seq,
        }));
    }
    if global_seq < session.global_seq {
        return Some(Err(ResumeFault::StaleGlobal {
            kept: session.global_seq,
        }));
    }
    if session.epoch == u64::MAX {
        return Some(Err(ResumeFault::Spent));
    }
    Some(Ok((
        session.number,
        session.epoch + 1,
        session.last,
        session.lossy,
    )))
}

// Whether two owners are one entity under one global id.
fn is_same_owner<O: Owner>(a: &O, b: &O) -> bool
    ensures { result ≡ same_owner O.entity_of O.gid_of a.now b.now }
{
    a.entity() == b.entity() && a.gid() == b.gid()
}

// ---- answers as replies

fn admission_reply(answer: Result<(u64, u64), AdmitFault>) -> BookReply
    ensures { result ≡ admission_reply answer }
{
    match answer {
        Ok((number, epoch)) => BookReply::Admitted { number, epoch },
        Err(AdmitFault::CookieInUse { number }) => {
            BookReply::Refused(BookFault::CookieInUse { number })
        }
        Err(AdmitFault::BookFull { limit }) => BookReply::Refused(BookFault::BookFull { limit }),
        Err(AdmitFault::Spent) => BookReply::Refused(BookFault::Spent),
        Err(AdmitFault::OutOfMemory) => BookReply::OutOfMemory,
    }
}

fn resumption_reply(answer: Result<(u64, u64, u64, bool), ResumeFault>) -> BookReply
    ensures { result ≡ resumption_reply answer }
{
    match answer {
        Ok((number, epoch, last, lossy)) => BookReply::Resumed {
            number,
            epoch,
            last,
            lossy,
        },
        Err(fault) => refused_resumption(fault),
    }
}

fn refused_resumption(fault: ResumeFault) -> BookReply
    ensures { result ≡ refused_resumption fault }
{
    match fault {
        ResumeFault::Unknown => BookReply::Refused(BookFault::Unknown),
        ResumeFault::OwnerDiffers { entity, gid } => {
            BookReply::Refused(BookFault::OwnerDiffers { entity, gid })
        }
        ResumeFault::StaleConnect { kept } => BookReply::Refused(BookFault::StaleConnect { kept }),
        ResumeFault::StaleGlobal { kept } => BookReply::Refused(BookFault::StaleGlobal { kept }),
        ResumeFault::Spent => BookReply::Refused(BookFault::Spent),
        ResumeFault::OutOfMemory => BookReply::OutOfMemory,
    }
}

/// What `check` and `take` answer, as a reply.
pub fn message_reply(answer: Result<(), TakeRefusal>) -> BookReply
    ensures { result ≡ message_reply answer }
{
    match answer {
        Ok(()) => BookReply::Fine,
        Err(TakeRefusal::Stale { epoch }) => BookReply::Refused(BookFault::Stale { epoch }),
        Err(TakeRefusal::Repeat { last }) => BookReply::Refused(BookFault::Repeat { last }),
        Err(TakeRefusal::Gap { expected }) => BookReply::Refused(BookFault::Gap { expected }),
    }
}

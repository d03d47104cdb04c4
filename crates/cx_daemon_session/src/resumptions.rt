//! A SESSION_RECONNECT, by the book's reply.

ghost use Rattle.std.specs.Prelude.{◌≡◌, [], IfOk};
ghost use Rattle.cx_daemon_session.specs.cx_authorize.specs.Daemon.{Authority};
ghost use Rattle.cx_frame.specs.declared.frame.Frame.{Frame};
ghost use Rattle.cx_journal.specs.declared.faults.SessionFault.TheVariants as session;
ghost use Rattle.cx_journal.specs.declared.outcomes.Reason.TheVariants as reason;
ghost use Rattle.cx_link.specs.Wires.{SecureWire};
ghost use Rattle.cx_node.specs.cx_rules.specs.Acceptor.{AwaitsIdent, Open};
ghost use Rattle.cx_node.specs.cx_rules.specs.MonitorRule.{session_reset};
ghost use Rattle.cx_node.specs.cx_rules.specs.Rows.{sends_secure};
ghost use Rattle.cx_node.specs.cx_rules.specs.Secured.{secure_frame};
ghost use Rattle.cx_daemon_session.specs.cx_rules_session.specs.Hosting.{comes_to, on_resumption, reconnect_ok, resumes, session_retry, session_retry_global, tells_why};
ghost use Rattle.cx_session.specs.declared.call.BookReply.TheVariants as reply;
ghost use Rattle.cx_node.specs.steps.Sending.{SendsSecure};
ghost use Rattle.cx_node.specs.steps.Stages.{keys_alone};
ghost use Rattle.cx_daemon_session.specs.cx_verifying.specs.Rows.{Makes};
ghost use Rattle.cx_daemon_session.specs.cx_verifying.specs.Stages.{awaiting_ident};
ghost use Rattle.cx_daemon_session.specs.coming.Hosted.{IsCome};
ghost use Rattle.cx_daemon_session.specs.idents.Pending.{IsResumed, ident_arrival};

use crate::entries::{admission_of, served_as};
use crate::idents_pending::{ResumedTurn, Resuming};
use crate::{Link, Served, SessionOwner, Stage, come, entered};
use cx_base::{Duplicate, Items};
use cx_control::{
    SessionReconnect, SessionReconnectOk, SessionReset, SessionRetry, SessionRetryGlobal,
};
use cx_holdings::MonClient;
use cx_journal::{BytesFault, Entry, Reason, SessionFault};
use cx_link::{SecureLink, SentFrame, tag};
use cx_node::{Came, Moment, NoRow, NodeRow, goes_on_unchanged, refused_entry, send_secure};
use cx_session::{BookCall, BookFault, BookReply};
use cx_steps::SealEntry;
use std::alloc::{AllocError, Global};

/// What a SESSION_RECONNECT comes to by the book's reply to `Resume`: the session is entered, SESSION_RECONNECT_OK is sent and the link is open, and its
/// other links are to be shut; or why it isn't resumed is entered and told, and the link waits on. A reply that no book gives to this call is answered
/// as want of memory.
pub fn resumed(
    alloc: Global,
    mon_client: &MonClient,
    at: &Moment<'_>,
    resuming: Resuming,
    reply: &BookReply,
) -> Result<ResumedTurn, AllocError>
    ensures { IfOk result (IsResumed mon_client.now at.now resuming reply.now) }
{
    match reply {
        BookReply::Resumed {
            number,
            epoch,
            last,
            lossy,
        } => goes_with(
            alloc, mon_client, at, resuming, *number, *epoch, *last, *lossy,
        ),
        BookReply::Refused(fault) => waits_on(alloc, mon_client, at, resuming, fault),
        BookReply::Admitted { .. } => Err(AllocError),
        BookReply::Fine => Err(AllocError),
        BookReply::Ended(_) => Err(AllocError),
        BookReply::OutOfMemory => Err(AllocError),
    }
}

// The session is resumed on this link.
fn goes_with(
    alloc: Global,
    mon_client: &MonClient,
    at: &Moment<'_>,
    resuming: Resuming,
    number: u64,
    epoch: u64,
    last: u64,
    lossy: bool,
) -> Result<ResumedTurn, AllocError>
    ensures { IfOk result (IsResumed mon_client.now at.now resuming (reply.Resumed number epoch last lossy)) }
{
    let Resuming {
        link,
        reconnect,
        opened,
        call,
    } = resuming;
    match &call {
        BookCall::Resume { owner, .. } => {
            let came = resume(
                alloc, mon_client, at, link, owner, &reconnect, opened, number, epoch, last, lossy,
            )?;
            Ok(ResumedTurn {
                came,
                moved: Some(number),
                call: Some(call),
            })
        }
        BookCall::Admit { .. } => Err(AllocError),
        BookCall::Check { .. } => Err(AllocError),
        BookCall::Take { .. } => Err(AllocError),
        BookCall::End { .. } => Err(AllocError),
    }
}

// A session that was resumed is entered, SESSION_RECONNECT_OK is sent, and the link is open.
fn resume(
    alloc: Global,
    mon_client: &MonClient,
    at: &Moment<'_>,
    link: SecureLink,
    owner: &SessionOwner,
    reconnect: &SessionReconnect,
    opened: Items<SealEntry>,
    number: u64,
    epoch: u64,
    last: u64,
    lossy: bool,
) -> Result<Came<Link, ()>, AllocError>
    ensures { IfOk result (IsCome mon_client.now at.now.number opened
        (comes_to (resumes (ident_arrival mon_client.now at.now link owner.now) (keys_alone link.keys) owner.now reconnect.now number epoch last lossy))) }
{
    let cookie = reconnect.client_cookie;
    let told = admission_of(alloc, mon_client, at, owner, number, epoch, cookie)?;
    let served = served_as(alloc, owner, number, epoch, cookie, lossy)?;
    let made = opens(alloc, mon_client, at, link, served, last);
    let behind = entered(alloc, mon_client, at, Entry::Resumed(told), made);
    come(alloc, mon_client, at, opened, behind)
}

// SESSION_RECONNECT_OK is sent, and the link is open.
fn opens(
    alloc: Global,
    mon_client: &MonClient,
    at: &Moment<'_>,
    link: SecureLink,
    served: Served,
    last: u64,
) -> Result<NodeRow<Link, ()>, NoRow>
    ensures { (owner : Authority) → Makes mon_client.now at.now (awaiting_ident at.now.number link owner)
        (λ a. sends_secure a (keys_alone link.keys) (λ behind. Open behind served) [] (reconnect_ok last)) result }
{
    let sent = send_secure(
        alloc,
        link,
        tag::SESSION_RECONNECT_OK,
        &SessionReconnectOk { seq: last },
    )??;
    let link = Link::new(alloc, at.number, Stage::Open(sent.link, served))?;
    Ok(goes_on_unchanged(alloc, link, sent.bytes, sent.seals))
}

// It isn't, and the link waits on.
fn waits_on(
    alloc: Global,
    mon_client: &MonClient,
    at: &Moment<'_>,
    resuming: Resuming,
    fault: &BookFault,
) -> Result<ResumedTurn, AllocError>
    ensures { IfOk result (IsResumed mon_client.now at.now resuming (reply.Refused fault.now)) }
{
    let Resuming {
        link,
        reconnect,
        opened,
        call,
    } = resuming;
    match call {
        BookCall::Resume { owner, .. } => {
            let came = told(
                alloc, mon_client, at, link, owner, &reconnect, opened, fault,
            )?;
            Ok(ResumedTurn {
                came,
                moved: None,
                call: None,
            })
        }
        BookCall::Admit { .. } => Err(AllocError),
        BookCall::Check { .. } => Err(AllocError),
        BookCall::Take { .. } => Err(AllocError),
        BookCall::End { .. } => Err(AllocError),
    }
}

fn told(
    alloc: Global,
    mon_client: &MonClient,
    at: &Moment<'_>,
    link: SecureLink,
    owner: SessionOwner,
    reconnect: &SessionReconnect,
    opened: Items<SealEntry>,
    fault: &BookFault,
) -> Result<Came<Link, ()>, AllocError>
    ensures { IfOk result (IsCome mon_client.now at.now.number opened
        (on_resumption (ident_arrival mon_client.now at.now link owner) (keys_alone link.keys) owner reconnect.now (reply.Refused fault.now))) }
{
    match fault {
        BookFault::Unknown => {
            let why = Reason::Session(SessionFault::UnknownSession);
            resets(alloc, mon_client, at, link, owner, opened, why)
        }
        BookFault::OwnerDiffers { entity, gid } => {
            let entity = entity.copy(alloc)?;
            let why = Reason::Session(SessionFault::OwnerDiffers { entity, gid: *gid });
            resets(alloc, mon_client, at, link, owner, opened, why)
        }
        BookFault::Spent => resets(alloc, mon_client, at, link, owner, opened, Reason::Spent),
        BookFault::StaleConnect { kept } => retries(
            alloc, mon_client, at, link, owner, opened, *kept,
        ),
        BookFault::StaleGlobal { kept } => {
            retries_global(alloc, mon_client, at, link, owner, opened, *kept)
        }
        BookFault::CookieInUse { .. } => Err(AllocError),
        BookFault::BookFull { .. } => Err(AllocError),
        BookFault::Stale { .. } => Err(AllocError),
        BookFault::Repeat { .. } => Err(AllocError),
        BookFault::Gap { .. } => Err(AllocError),
    }
}

// SESSION_RESET: all of the session is to be forgotten.
fn resets(
    alloc: Global,
    mon_client: &MonClient,
    at: &Moment<'_>,
    link: SecureLink,
    owner: SessionOwner,
    opened: Items<SealEntry>,
    why: Reason,
) -> Result<Came<Link, ()>, AllocError>
    ensures { IfOk result (IsCome mon_client.now at.now.number opened
        (tells_why (ident_arrival mon_client.now at.now link owner) (keys_alone link.keys) owner why session_reset)) }
{
    let sent = send_secure(
        alloc,
        link,
        tag::SESSION_RESET,
        &SessionReset { full: true },
    )?;
    tells(alloc, mon_client, at, owner, opened, why, sent)
}

// SESSION_RETRY, with the number that the book keeps.
fn retries(
    alloc: Global,
    mon_client: &MonClient,
    at: &Moment<'_>,
    link: SecureLink,
    owner: SessionOwner,
    opened: Items<SealEntry>,
    kept: u64,
) -> Result<Came<Link, ()>, AllocError>
    ensures { IfOk result (IsCome mon_client.now at.now.number opened
        (tells_why (ident_arrival mon_client.now at.now link owner) (keys_alone link.keys) owner (reason.Session (session.StaleConnect kept)) (session_retry kept))) }
{
    let why = Reason::Session(SessionFault::StaleConnect(kept));
    let sent = send_secure(
        alloc,
        link,
        tag::SESSION_RETRY,
        &SessionRetry { connect_seq: kept },
    )?;
    tells(alloc, mon_client, at, owner, opened, why, sent)
}

// SESSION_RETRY_GLOBAL, likewise.
fn retries_global(
    alloc: Global,
    mon_client: &MonClient,
    at: &Moment<'_>,
    link: SecureLink,
    owner: SessionOwner,
    opened: Items<SealEntry>,
    kept: u64,
) -> Result<Came<Link, ()>, AllocError>
    ensures { IfOk result (IsCome mon_client.now at.now.number opened
        (tells_why (ident_arrival mon_client.now at.now link owner) (keys_alone link.keys) owner (reason.Session (session.StaleGlobal kept)) (session_retry_global kept))) }
{
    let why = Reason::Session(SessionFault::StaleGlobal(kept));
    let sent = send_secure(
        alloc,
        link,
        tag::SESSION_RETRY_GLOBAL,
        &SessionRetryGlobal { global_seq: kept },
    )?;
    tells(alloc, mon_client, at, owner, opened, why, sent)
}

// Why it isn't resumed is entered, behind which the frame was sent that tells it, if it can be.
fn tells(
    alloc: Global,
    mon_client: &MonClient,
    at: &Moment<'_>,
    owner: SessionOwner,
    opened: Items<SealEntry>,
    why: Reason,
    sent: Result<SentFrame, BytesFault>,
) -> Result<Came<Link, ()>, AllocError>
    ensures { (link : SecureWire) (f : Frame) → SendsSecure link (secure_frame link.keys f) sent
        → IfOk result (IsCome mon_client.now at.now.number opened (tells_why (ident_arrival mon_client.now at.now link owner) (keys_alone link.keys) owner why f)) }
{
    let me = mon_client.node_name(alloc)?;
    let first = refused_entry(alloc, &me, at.number, why)?;
    let made = stays(alloc, mon_client, at, owner, sent);
    let behind = entered(alloc, mon_client, at, first, made);
    come(alloc, mon_client, at, opened, behind)
}

// The link waits for CLIENT_IDENT or another SESSION_RECONNECT, with whom was authorized.
fn stays(
    alloc: Global,
    mon_client: &MonClient,
    at: &Moment<'_>,
    owner: SessionOwner,
    sent: Result<SentFrame, BytesFault>,
) -> Result<NodeRow<Link, ()>, NoRow>
    ensures { (link : SecureWire) (f : Frame) → SendsSecure link (secure_frame link.keys f) sent
        → Makes mon_client.now at.now (awaiting_ident at.now.number link owner) (λ a. sends_secure a (keys_alone link.keys) (λ behind. AwaitsIdent behind owner) [] f) result }
{
    let sent = sent?;
    let link = Link::new(alloc, at.number, Stage::AwaitsIdent(sent.link, owner))?;
    Ok(goes_on_unchanged(alloc, link, sent.bytes, sent.seals))
}

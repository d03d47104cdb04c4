//! A turn of a link whose peer has signed, up to what the book is asked.

ghost use Rattle.std.specs.Prelude.{◌≡◌, [], IfOk};
ghost use Rattle.cx_daemon_session.specs.cx_authorize.specs.Daemon.{Authority};
ghost use Rattle.cx_daemon_session.specs.cx_desk.specs.Handlers.{Handlers};
ghost use Rattle.cx_node.specs.cx_rules.specs.Acceptor.{misses};
ghost use Rattle.cx_daemon_session.specs.cx_rules_session.specs.Hosting.{on_client_ident, on_ident, on_reconnect};
ghost use Rattle.cx_node.specs.steps.Stages.{keys_alone};
ghost use Rattle.cx_daemon_session.specs.cx_verifying.specs.Rows.{Makes};
ghost use Rattle.cx_daemon_session.specs.cx_verifying.specs.Stages.{IncomingLink, awaiting_ident};
ghost use Rattle.cx_daemon_session.specs.idents.Pending.{IsBegun, IsDecided, StaysOn, admission_call, ident_arrival};

use crate::entries::is_lossy;
use crate::idents_pending::{Admitting, IdentTurn, Resuming};
use crate::{Link, SessionOwner, Stage, come};
use cx_base::Items;
use cx_control::{ClientIdent, IdentMissingFeatures, SessionReconnect};
use cx_frame::Frame;
use cx_holdings::MonClient;
use cx_journal::{BytesFault, Reason};
use cx_link::{LinkTurn, SecureLink, tag};
use cx_node::{Came, Moment, NoRow, NodeRow, Row, payload, refuses, send_secure};
use cx_session::BookCall;
use cx_steps::SealEntry;
use std::alloc::{AllocError, Global};

/// What stands next on a link whose peer has signed. Nothing of what the daemon has is changed.
pub fn ident_turn(
    alloc: Global,
    mon_client: &MonClient,
    at: &Moment<'_>,
    link: SecureLink,
    owner: SessionOwner,
) -> Result<IdentTurn, AllocError>
    ensures begun { (handlers : Handlers) → IfOk result (IsBegun handlers mon_client.now at.now (awaiting_ident at.now.number link owner)) }
    ensures stays { IfOk result (StaysOn (awaiting_ident at.now.number link owner)) }
{
    let mut opened = Items::new(alloc);
    match link.turn(alloc, &mut opened)? {
        LinkTurn::Waits(link) => {
            let link = Link::new(alloc, at.number, Stage::AwaitsIdent(link, owner))?;
            Ok(IdentTurn::Done(Came::Waits(link)))
        }
        LinkTurn::Refuses(why) => Ok(IdentTurn::Done(Came::Refuses(why, opened))),
        LinkTurn::Takes(link, frame) => on_ident(
            alloc, mon_client, at, link, owner, opened, &frame,
        ),
    }
}

// A frame behind the peer's signature.
fn on_ident(
    alloc: Global,
    mon_client: &MonClient,
    at: &Moment<'_>,
    link: SecureLink,
    owner: SessionOwner,
    opened: Items<SealEntry>,
    frame: &Frame,
) -> Result<IdentTurn, AllocError>
    ensures begun { IfOk result (IsDecided mon_client.now at.now opened
        (on_ident (ident_arrival mon_client.now at.now link owner) (keys_alone link.keys) owner frame.now)) }
    ensures stays { (old : IncomingLink) → old.number ≡ at.now.number → IfOk result (StaysOn old) }
{
    if frame.tag == tag::CLIENT_IDENT {
        let read = payload::<ClientIdent>(alloc, frame)?;
        on_client_ident(alloc, mon_client, at, link, owner, opened, read)
    } else if frame.tag == tag::SESSION_RECONNECT {
        let read = payload::<SessionReconnect>(alloc, frame)?;
        on_reconnect(alloc, mon_client, at, link, owner, opened, read)
    } else {
        let why = NoRow::from(BytesFault::Unexpected(frame.tag));
        let came = come(alloc, mon_client, at, opened, Err(why))?;
        Ok(IdentTurn::Done(came))
    }
}

// The book is asked to admit a session, unless the client requires features.
fn on_client_ident(
    alloc: Global,
    mon_client: &MonClient,
    at: &Moment<'_>,
    link: SecureLink,
    owner: SessionOwner,
    opened: Items<SealEntry>,
    read: Result<ClientIdent, BytesFault>,
) -> Result<IdentTurn, AllocError>
    ensures begun { IfOk result (IsDecided mon_client.now at.now opened
        (on_client_ident (ident_arrival mon_client.now at.now link owner) (keys_alone link.keys) owner read)) }
    ensures stays { (old : IncomingLink) → old.number ≡ at.now.number → IfOk result (StaysOn old) }
{
    match read {
        Err(why) => {
            let came = come(alloc, mon_client, at, opened, Err(NoRow::from(why)))?;
            Ok(IdentTurn::Done(came))
        }
        Ok(ident) => {
            if ident.required == 0 {
                Ok(IdentTurn::Admits(asks_admission(at, link, owner, opened, ident)))
            } else {
                let made = misses(alloc, mon_client, at, link, ident.required);
                let came = come(alloc, mon_client, at, opened, made)?;
                Ok(IdentTurn::Done(came))
            }
        }
    }
}

// A cookie is drawn, and the session is lossy where the client says so.
fn asks_admission(
    at: &Moment<'_>,
    link: SecureLink,
    owner: SessionOwner,
    opened: Items<SealEntry>,
    ident: ClientIdent,
) -> Admitting
    ensures { result ≡ record {
      link = link;
      ident = ident;
      opened = opened;
      call = admission_call at.now owner ident;
    } }
{
    let call = BookCall::Admit {
        owner,
        client_cookie: ident.cookie,
        server_cookie: at.draw.cookie(),
        global_seq: ident.global_seq,
        lossy: is_lossy(ident.flags),
    };
    Admitting {
        link,
        ident,
        opened,
        call,
    }
}

// IDENT_MISSING_FEATURES is sent, and the link is shut.
fn misses(
    alloc: Global,
    mon_client: &MonClient,
    at: &Moment<'_>,
    link: SecureLink,
    features: u64,
) -> Result<NodeRow<Link, ()>, NoRow>
    ensures { (owner : Authority) → Makes mon_client.now at.now (awaiting_ident at.now.number link owner) (λ a. misses a (keys_alone link.keys) features) result }
{
    let sent = send_secure(
        alloc,
        link,
        tag::IDENT_MISSING_FEATURES,
        &IdentMissingFeatures { features },
    )??;
    let me = mon_client.node_name(alloc)?;
    let why = Reason::Bytes(BytesFault::Features(features));
    let refusal = refuses(alloc, &me, at.number, why, sent.seals)?;
    Ok(NodeRow::keeping(Row {
        sends: sent.bytes,
        ..refusal
    }))
}

// The book is asked to resume the session of both cookies.
fn on_reconnect(
    alloc: Global,
    mon_client: &MonClient,
    at: &Moment<'_>,
    link: SecureLink,
    owner: SessionOwner,
    opened: Items<SealEntry>,
    read: Result<SessionReconnect, BytesFault>,
) -> Result<IdentTurn, AllocError>
    ensures begun { IfOk result (IsDecided mon_client.now at.now opened
        (on_reconnect (ident_arrival mon_client.now at.now link owner) (keys_alone link.keys) owner read)) }
    ensures stays { (old : IncomingLink) → old.number ≡ at.now.number → IfOk result (StaysOn old) }
{
    match read {
        Err(why) => {
            let came = come(alloc, mon_client, at, opened, Err(NoRow::from(why)))?;
            Ok(IdentTurn::Done(came))
        }
        Ok(reconnect) => {
            let call = BookCall::Resume {
                owner,
                client_cookie: reconnect.client_cookie,
                server_cookie: reconnect.server_cookie,
                global_seq: reconnect.global_seq,
                connect_seq: reconnect.connect_seq,
            };
            Ok(IdentTurn::Resumes(Resuming {
                link,
                reconnect,
                opened,
                call,
            }))
        }
    }
}

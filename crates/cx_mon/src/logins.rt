//! LoginHello and Authenticate.

ghost use Rattle.std.specs.Prelude.{◌≡◌, ◌<◌, ◌⊎◌, ◌++◌, [], None, Some, Ok, IfOk, OnOk};
ghost use Rattle.cx_node.specs.steps.Sending.{SendsPlain};
ghost use Rattle.cx_rules.specs.MonitorLogin.{done_frame, on_authenticate, on_login_hello, proves, row_by};
ghost use Rattle.cx_link.specs.Wires.{wired};
ghost use Rattle.cx_rules.specs.declared.verdicts.Verdict.TheVariants.{Granted};
ghost use Rattle.cx_link.specs.Sending.{IsControl};
ghost use Rattle.cx_dice.specs.Draws.{challenge_of};
ghost use Rattle.cx_rules.specs.Acceptor.{AwaitsRequest};
ghost use Rattle.cx_rules.specs.Monitor.{MonitorStage};
ghost use Rattle.cx_rules.specs.MonitorRule.{on_auth_request_more};
ghost use Rattle.cx_rules.specs.Rows.{sends_plain};
ghost use Rattle.cx_rules.specs.Secured.{plain_frame};
ghost use Rattle.cx_mon.specs.acceptor.Rows.{IsMonitorRow, IsSameBut, Makes, arrived, challenge_frame, challenged, handing_over, offered_to, saves, saving};
ghost use Rattle.cx_mon.specs.acceptor.Stages.{awaiting_proof};

use crate::links::{Link, Stage};
use crate::making::{denies, logs};
use crate::own::{KeyChange, Own};
use cx_base::{Blob, Duplicate, Items, NodeName};
use cx_control::{AuthReplyMore, AuthRequestMore};
use cx_enc::{Key, write_whole};
use cx_frame::{Frame, Segment};
use cx_journal::{BytesFault, LoginFault};
use cx_link::{Finished, LinkRefusal, PlainLink, code, tag};
use cx_login::{Offered, Proved};
use cx_mon_grants::{HandedOut, Occasion, Verdict, log_in};
use cx_node::{
    Moment, NoRow, NodeRow, Row, SentPlain, goes_on_unchanged, refuses_bytes, send_plain,
    unless_refused, whole,
};
use cx_rules::Bearer;
use cx_steps::{DrawMark, SealEntry};
use cx_wire::{Authenticate, LoginHello, ServerChallenge};
use std::alloc::{AllocError, Global};

// An entity of the keyring is sent a challenge; any other is denied.
pub(crate) fn on_login_hello(
    alloc: Global,
    own: &Own,
    at: &Moment<'_>,
    link: PlainLink,
    read: Result<LoginHello, BytesFault>,
) -> Result<NodeRow<Link, KeyChange>, NoRow>
    ensures { Makes own.now at.now (wired at.now.number link AwaitsRequest) (λ a. on_login_hello a read) result }
{
    let hello = read?;
    let key = own.key_of(&hello.name);
    challenges(alloc, own, at, link, hello, key)
}

// What comes of an entity with this key, or without one.
fn challenges(
    alloc: Global,
    own: &Own,
    at: &Moment<'_>,
    link: PlainLink,
    hello: LoginHello,
    key: Option<Key>,
) -> Result<NodeRow<Link, KeyChange>, NoRow>
    ensures { Makes own.now at.now (wired at.now.number link AwaitsRequest) (λ a. challenged a hello key) result }
{
    match key {
        Some(key) => offers(alloc, own, at, link, hello, key),
        None => Ok(denies(
            alloc,
            at,
            code::PERMISSION_DENIED,
            LoginFault::UnknownEntity,
        )?),
    }
}

// A challenge is drawn for an entity with this key, and sent behind that it was drawn.
fn offers(
    alloc: Global,
    own: &Own,
    at: &Moment<'_>,
    link: PlainLink,
    hello: LoginHello,
    key: Key,
) -> Result<NodeRow<Link, KeyChange>, NoRow>
    ensures { Makes own.now at.now (wired at.now.number link AwaitsRequest) (λ a. challenged a hello (Some key)) result }
{
    let challenge = at.draw.challenge();
    let mut drawn = Items::new(alloc);
    drawn.push(alloc, SealEntry::Drawn(DrawMark::Challenge(challenge)))?;
    let made = awaits_proof(alloc, own, at, link, hello, key);
    let row = unless_refused(alloc, &NodeName::Monitor, at.number, drawn, made)?;
    Ok(row)
}

// The challenge is sent, and its proof is waited for.
fn awaits_proof(
    alloc: Global,
    own: &Own,
    at: &Moment<'_>,
    link: PlainLink,
    hello: LoginHello,
    key: Key,
) -> Result<NodeRow<Link, KeyChange>, NoRow>
    ensures { Makes own.now at.now (wired at.now.number link AwaitsRequest)
        (λ a. sends_plain a (offered_to a.draw hello key) [] (challenge_frame (challenge_of a.draw))) result }
{
    let challenge = at.draw.challenge();
    let sent = send_challenge(alloc, link, challenge)??;
    let offered = Offered::new(hello.name, key, challenge);
    let link = Link::new(
        alloc,
        at.number,
        Stage::AwaitsProof(sent.link, offered, hello.gid),
    )?;
    Ok(goes_on_unchanged(alloc, link, sent.bytes, Items::new(alloc)))
}

// Sends AUTH_REPLY_MORE with a challenge.
fn send_challenge(
    alloc: Global,
    link: PlainLink,
    challenge: u64,
) -> Result<Result<SentPlain, BytesFault>, AllocError>
    ensures { IfOk result (SendsPlain link (plain_frame (challenge_frame challenge))) }
{
    let payload = write_whole(alloc, &ServerChallenge { challenge })?;
    send_plain(
        alloc,
        link,
        tag::AUTH_REPLY_MORE,
        &AuthReplyMore { payload },
    )
}

// AUTH_REQUEST_MORE holds an Authenticate.
pub(crate) fn on_auth_request_more(
    alloc: Global,
    own: &mut Own,
    at: &Moment<'_>,
    link: PlainLink,
    offered: Offered,
    gid: u64,
    read: Result<AuthRequestMore, BytesFault>,
) -> Result<NodeRow<Link, KeyChange>, NoRow>
    requires { at.now.reading < 4000000000000000000 }
    ensures row { Makes own.old at.now (awaiting_proof at.now.number link offered gid) (λ a. on_auth_request_more a (record { offer = offered; gid = gid }) read) result }
    ensures same { own.new ≡ own.old }
{
    let more = read?;
    let ask = whole::<Authenticate>(alloc, more.payload.bytes())?;
    on_authenticate(alloc, own, at, link, offered, gid, ask)
}

// The proof is compared; behind an equal one the login is judged.
pub(crate) fn on_authenticate(
    alloc: Global,
    own: &mut Own,
    at: &Moment<'_>,
    link: PlainLink,
    offered: Offered,
    gid: u64,
    read: Result<Authenticate, BytesFault>,
) -> Result<NodeRow<Link, KeyChange>, NoRow>
    requires { at.now.reading < 4000000000000000000 }
    ensures row { Makes own.old at.now (awaiting_proof at.now.number link offered gid) (λ a. on_authenticate a (record { offer = offered; gid = gid }) read) result }
    ensures same { own.new ≡ own.old }
{
    let ask = read?;
    match offered.prove(ask) {
        Ok(proved) => logs_in(alloc, own, at, link, &proved, gid),
        Err(_) => Ok(denies(alloc, at, code::PERMISSION_DENIED, LoginFault::WrongProof)?),
    }
}

// An Authenticate that proved its entity. What the login changes is taken back here: it is settled once the row is carried out.
#[tactic(auto, using(crate::proofs::acceptor::Changed::change_made))]
fn logs_in(
    alloc: Global,
    own: &mut Own,
    at: &Moment<'_>,
    link: PlainLink,
    proved: &Proved,
    gid: u64,
) -> Result<NodeRow<Link, KeyChange>, NoRow>
    requires { at.now.reading < 4000000000000000000 }
    ensures row { Makes own.old at.now (awaiting_proof at.now.number link proved.now.offer gid) (λ a. proves a gid (Ok proved.now)) result }
    ensures same { own.new ≡ own.old }
{
    let before = own.mark();
    let made = proves(alloc, own, at, link, proved, gid);
    let mark = own.mark();
    own.go_back(&before);
    let row = made?;
    let change = KeyChange::of(alloc, &mark)?;
    Ok(NodeRow {
        row,
        change: Some(change),
    })
}

// The same with what it changes.
fn proves(
    alloc: Global,
    own: &mut Own,
    at: &Moment<'_>,
    link: PlainLink,
    proved: &Proved,
    gid: u64,
) -> Result<Row<Link>, AllocError>
    requires { at.now.reading < 4000000000000000000 }
    ensures row { IfOk result (IsMonitorRow at.now.number own.new (proves (arrived own.old at.now (awaiting_proof at.now.number link proved.now.offer gid)) gid (Ok proved.now))) }
    ensures same { IsSameBut own.old own.new }
{
    let occasion = Occasion {
        saved: &own.saved,
        reading: at.reading,
        draw: at.draw,
    };
    let verdict = log_in(alloc, &mut own.server, proved, gid, &occasion)?;
    let row = told(alloc, own, at, link, verdict)?;
    own.note_saved(&row.save);
    Ok(row)
}

// What the monitor, with the key server behind the verdict, tells the entity of it.
fn told(
    alloc: Global,
    own: &Own,
    at: &Moment<'_>,
    link: PlainLink,
    verdict: Verdict,
) -> Result<Row<Link>, AllocError>
    ensures row { (stage : MonitorStage) → IfOk result (λ row. IsMonitorRow at.now.number (saving own.now row.save)
        (row_by (arrived own.now at.now (wired at.now.number link stage)) verdict) row) }
    ensures save { IfOk result (λ row. (row.save ≡ None) ⊎ (row.save ≡ saves verdict)) }
{
    match verdict {
        Verdict::Denied { why, seals } => cx_node::denies(
            alloc,
            &NodeName::Monitor,
            at.number,
            code::PERMISSION_DENIED,
            why,
            seals,
        ),
        Verdict::Granted(handed) => hands_over(alloc, own, at, link, handed),
    }
}

// AUTH_DONE and AUTH_SIGNATURE are sent; the link is secured. Where they can't be, the link is refused behind what was decided.
fn hands_over(
    alloc: Global,
    own: &Own,
    at: &Moment<'_>,
    link: PlainLink,
    handed: HandedOut,
) -> Result<Row<Link>, AllocError>
    ensures row { (stage : MonitorStage) → IfOk result (λ row. IsMonitorRow at.now.number (saving own.now row.save)
        (row_by (arrived own.now at.now (wired at.now.number link stage)) (Granted handed)) row) }
    ensures save { IfOk result (λ row. (row.save ≡ None) ⊎ (row.save ≡ handed.save)) }
{
    let done = done_frame(alloc, &handed.payload)?;
    match link.finish(alloc, &handed.session, &handed.secret, &done) {
        Ok(finished) => awaits_signature(alloc, at, handed, finished),
        Err(LinkRefusal::Fault(why)) => refuses_bytes(
            alloc,
            &NodeName::Monitor,
            at.number,
            why,
            handed.seals,
        ),
        Err(LinkRefusal::OutOfMemory) => Err(AllocError),
    }
}

// What finishes the link is sent.
fn awaits_signature(
    alloc: Global,
    at: &Moment<'_>,
    handed: HandedOut,
    finished: Finished,
) -> Result<Row<Link>, AllocError>
    ensures { IfOk result (λ row. row ≡ handing_over at.now.number handed finished) }
{
    let mut seals = handed.seals;
    logs(alloc, &mut seals, handed.sealed, finished.seals)?;
    let session = handed.session;
    let bearer = Bearer {
        name: handed.name,
        gid: handed.gid,
        session,
        last: 0,
    };
    let link = Link::new(
        alloc,
        at.number,
        Stage::AwaitsSignature(finished.signing, bearer),
    )?;
    Ok(Row {
        link: Some(link),
        sends: finished.bytes,
        save: handed.save,
        entries: handed.entries,
        seals,
    })
}

// AUTH_DONE with a payload.
fn done_frame(alloc: Global, payload: &Blob) -> Result<Frame, AllocError>
    ensures frame { IfOk result (λ frame. frame ≡ done_frame payload.now) }
    ensures control { IfOk result IsControl }
{
    let bytes = payload.copy(alloc)?;
    let mut segments = Items::new(alloc);
    segments.push(alloc, Segment { align: 8, bytes })?;
    Ok(Frame {
        tag: tag::AUTH_DONE,
        segments,
    })
}

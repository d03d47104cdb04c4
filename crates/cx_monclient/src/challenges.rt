//! AUTH_REPLY_MORE: the monitor's challenge is answered by an Authenticate.

ghost use Rattle.std.specs.Prelude.{◌≡◌, IfOk};
ghost use Rattle.cx_control.specs.Auth.{auth_request_more_layout};
ghost use Rattle.cx_link.specs.Wires.{wired};
ghost use Rattle.cx_node.specs.cx_rules.specs.Connector as connector;
ghost use Rattle.cx_node.specs.cx_rules.specs.Connector.{AwaitsChallenge, on_challenge, on_reply_more, proof_made, proves, while_challenged};
ghost use Rattle.cx_node.specs.cx_rules.specs.Payloads.{control, whole};
ghost use Rattle.cx_node.specs.cx_rules.specs.Secured.{plain_frame};
ghost use Rattle.cx_login.specs.cx_wire.specs.Logins.{server_challenge_layout};
ghost use Rattle.cx_monclient.specs.connector.Rows.{Makes, proof_sent};
ghost use Rattle.cx_node.specs.steps.Sending.{SendsPlain};

use crate::denials::on_bad_method;
use crate::links::{Link, Stage};
use crate::making::unless_refused;
use crate::rows::BoxedChange;
use cx_base::{Blob, Items};
use cx_control::{AuthBadMethod, AuthReplyMore, AuthRequestMore};
use cx_frame::Frame;
use cx_holdings::{Answer, MonClient};
use cx_journal::{BytesFault, KeyKind};
use cx_link::{PlainLink, tag};
use cx_node::{
    Moment, NoRow, NodeRow, SentPlain, due, goes_on_unchanged, payload_part, send_plain,
};
use cx_steps::{DrawMark, SealEntry, SealMark};
use std::alloc::{AllocError, Global};

/// The segments of a plain frame have at most so many bytes together.
const MAX_PLAIN: usize = 65_536;

// A frame behind AUTH_REQUEST.
pub(crate) fn while_challenged(
    alloc: Global,
    mon_client: &MonClient,
    at: &Moment<'_>,
    link: PlainLink,
    asked: u32,
    frame: &Frame,
) -> Result<NodeRow<Link, BoxedChange>, NoRow>
    ensures { Makes mon_client.now at.now (wired at.now.number link (AwaitsChallenge asked)) (λ a. while_challenged a asked frame.now) result }
{
    if frame.tag == tag::AUTH_BAD_METHOD {
        let read = payload_part::<AuthBadMethod>(alloc, frame)?;
        on_bad_method(alloc, mon_client, at, read)
    } else {
        let read = due::<AuthReplyMore>(alloc, tag::AUTH_REPLY_MORE, frame)?;
        on_reply_more(alloc, mon_client, at, link, asked, read)
    }
}

// AUTH_REPLY_MORE holds a ServerChallenge.
fn on_reply_more(
    alloc: Global,
    mon_client: &MonClient,
    at: &Moment<'_>,
    link: PlainLink,
    asked: u32,
    read: Result<AuthReplyMore, BytesFault>,
) -> Result<NodeRow<Link, BoxedChange>, NoRow>
    ensures { Makes mon_client.now at.now (wired at.now.number link (AwaitsChallenge asked)) (λ a. on_reply_more a asked read) result }
{
    let more = read?;
    on_challenge(alloc, mon_client, at, link, asked, more.payload.bytes())
}

// The challenge of this payload is answered, with the ticket for AUTH that is held as old ticket while it is good.
fn on_challenge(
    alloc: Global,
    mon_client: &MonClient,
    at: &Moment<'_>,
    link: PlainLink,
    asked: u32,
    payload: &[u8],
) -> Result<NodeRow<Link, BoxedChange>, NoRow>
    ensures { Makes mon_client.now at.now (wired at.now.number link (AwaitsChallenge asked)) (λ a. on_challenge a asked (whole server_challenge_layout.form payload.now)) result }
{
    let challenge = at.draw.challenge();
    let answer = mon_client.answered(alloc, payload, asked, at.reading, challenge)??;
    proves(alloc, mon_client, at, link, answer)
}

// One's own challenge was drawn, and the proof of both is sent.
fn proves(
    alloc: Global,
    mon_client: &MonClient,
    at: &Moment<'_>,
    link: PlainLink,
    answer: Answer,
) -> Result<NodeRow<Link, BoxedChange>, NoRow>
    ensures { (stage : connector.Stage) → Makes mon_client.now at.now (wired at.now.number link stage) (λ a. proves a answer.server.challenge
        (plain_frame (control 5 auth_request_more_layout.form (record { payload = answer.bytes })))) result }
{
    let challenge = at.draw.challenge();
    let mut drawn = Items::new(alloc);
    drawn.push(alloc, SealEntry::Drawn(DrawMark::Challenge(challenge)))?;
    let made = awaits_done(alloc, mon_client, at, link, answer);
    let row = unless_refused(alloc, mon_client, at, drawn, made)?;
    Ok(row)
}

// The proof is sent and logged.
fn awaits_done(
    alloc: Global,
    mon_client: &MonClient,
    at: &Moment<'_>,
    link: PlainLink,
    answer: Answer,
) -> Result<NodeRow<Link, BoxedChange>, NoRow>
    ensures { (stage : connector.Stage) → Makes mon_client.now at.now (wired at.now.number link stage) (λ a. proof_sent a answer.server.challenge
        (plain_frame (control 5 auth_request_more_layout.form (record { payload = answer.bytes })))) result }
{
    let sent = send_proof(alloc, link, answer.bytes)??;
    let proof = proof_made(
        alloc,
        mon_client,
        answer.server.challenge,
        at.draw.challenge(),
    )?;
    let mut seals = Items::new(alloc);
    seals.push(alloc, proof)?;
    let link = Link::new(alloc, at.number, Stage::AwaitsDone(sent.link))?;
    Ok(goes_on_unchanged(alloc, link, sent.bytes, seals))
}

// Sends AUTH_REQUEST_MORE with an Authenticate. An old ticket may be too long for it.
fn send_proof(
    alloc: Global,
    link: PlainLink,
    authenticate: Blob,
) -> Result<Result<SentPlain, BytesFault>, AllocError>
    ensures { IfOk result (SendsPlain link (plain_frame (control 5 auth_request_more_layout.form (record { payload = authenticate })))) }
{
    if authenticate.bytes().len() > MAX_PLAIN {
        return Ok(Err(BytesFault::TooLong));
    }
    send_plain(
        alloc,
        link,
        5,
        &AuthRequestMore {
            payload: authenticate,
        },
    )
}

// Both challenges, which the proof signs under one's own secret, as an entry of the log: the monitor's is the first.
fn proof_made(
    alloc: Global,
    mon_client: &MonClient,
    server: u64,
    client: u64,
) -> Result<SealEntry, AllocError>
    ensures { IfOk result (λ entry. entry ≡ proof_made mon_client.now.secret server client) }
{
    let mut content = Blob::of(alloc, &server.to_le_bytes())?;
    content.append(alloc, &client.to_le_bytes())?;
    Ok(SealEntry::Signed(SealMark {
        key: mon_client.secret(),
        kind: KeyKind::Proof,
        content,
    }))
}

//! AUTH_REPLY_MORE: the daemon's challenge is answered by a second authorizer.

ghost use Rattle.std.specs.Prelude.{◌≡◌, [], ◌∷◌, Some, IfOk};
ghost use Rattle.cx_link.specs.Wires.{wired};
ghost use Rattle.cx_node.specs.cx_rules.specs.Payloads.{whole};
ghost use Rattle.cx_client_connect.specs.cx_rules_session.specs.Envelopes.{authorize_content, sends_holding, session_sealed};
ghost use Rattle.cx_client_connect.specs.cx_rules_session.specs.Presenter.{AwaitsDone, CallStage, authorizer_bytes, on_challenge, on_reply_more, second_frame, while_challenged};
ghost use Rattle.cx_login.specs.cx_wire.specs.Logins.{authorize_challenge_layout};
ghost use Rattle.cx_client_connect.specs.presenting.Rows.{Makes};
ghost use Rattle.cx_client_connect.specs.presenting.Stages.{awaiting_challenge};

use crate::Callee;
use crate::denials::{no_row, on_bad_method};
use crate::links::{Link, Stage};
use crate::making::unless_refused;
use crate::rows::Change;
use crate::sending::send_more;
use cx_authorize::{Answering, Presenting};
use cx_base::{Blob, Items};
use cx_control::{AuthBadMethod, AuthReplyMore};
use cx_frame::Frame;
use cx_holdings::MonClient;
use cx_journal::BytesFault;
use cx_link::{PlainLink, tag};
use cx_node::{Moment, NoRow, NodeRow, due, goes_on_unchanged, payload_part};
use std::alloc::{AllocError, Global};

// A frame behind AUTH_REQUEST.
pub(crate) fn while_challenged(
    alloc: Global,
    mon_client: &MonClient,
    at: &Moment<'_>,
    link: PlainLink,
    callee: Callee,
    presenting: Presenting,
    frame: &Frame,
) -> Result<NodeRow<Link, Change>, NoRow>
    ensures { Makes mon_client.now at.now (awaiting_challenge at.now.number link callee presenting) (λ a. while_challenged a callee presenting frame.now) result }
{
    if frame.tag == tag::AUTH_BAD_METHOD {
        let read = payload_part::<AuthBadMethod>(alloc, frame)?;
        on_bad_method(mon_client, at, read)
    } else {
        let read = due::<AuthReplyMore>(alloc, tag::AUTH_REPLY_MORE, frame)?;
        on_reply_more(alloc, mon_client, at, link, callee, presenting, read)
    }
}

// AUTH_REPLY_MORE holds an AuthorizeChallenge.
fn on_reply_more(
    alloc: Global,
    mon_client: &MonClient,
    at: &Moment<'_>,
    link: PlainLink,
    callee: Callee,
    presenting: Presenting,
    read: Result<AuthReplyMore, BytesFault>,
) -> Result<NodeRow<Link, Change>, NoRow>
    ensures { Makes mon_client.now at.now (awaiting_challenge at.now.number link callee presenting) (λ a. on_reply_more a callee presenting read) result }
{
    let more = read?;
    on_challenge(
        alloc,
        mon_client,
        at,
        link,
        callee,
        presenting,
        more.payload.bytes(),
    )
}

// The challenge of this payload is answered; what opened is logged first.
fn on_challenge(
    alloc: Global,
    mon_client: &MonClient,
    at: &Moment<'_>,
    link: PlainLink,
    callee: Callee,
    presenting: Presenting,
    payload: &[u8],
) -> Result<NodeRow<Link, Change>, NoRow>
    ensures { Makes mon_client.now at.now (awaiting_challenge at.now.number link callee presenting)
        (λ a. on_challenge a callee presenting (whole authorize_challenge_layout.form payload.now)) result }
{
    let mut opened = Items::new(alloc);
    match presenting.asked(alloc, payload, &mut opened) {
        Ok(challenge) => {
            let made = answer(alloc, mon_client, at, link, callee, presenting, challenge);
            let row = unless_refused(alloc, mon_client, at, opened, made)?;
            Ok(row)
        }
        Err(why) => {
            let row = unless_refused(alloc, mon_client, at, opened, Err(no_row(why)))?;
            Ok(row)
        }
    }
}

// The second authorizer is sent and logged as sealed.
fn answer(
    alloc: Global,
    mon_client: &MonClient,
    at: &Moment<'_>,
    link: PlainLink,
    callee: Callee,
    presenting: Presenting,
    challenge: u64,
) -> Result<NodeRow<Link, Change>, NoRow>
    ensures { (stage : CallStage) → Makes mon_client.now at.now (wired at.now.number link stage)
        (λ a. sends_holding a (AwaitsDone callee (record { session = presenting.held.session; nonce = presenting.nonce })) []
        (session_sealed presenting.held.session (authorize_content presenting.nonce (Some challenge)) ∷ []) (second_frame presenting challenge)) result }
{
    let sealed = presenting.sealed(alloc, Some(challenge))?;
    let (answering, bytes) = answering_for(alloc, presenting, challenge)?;
    let sent = send_more(alloc, link, bytes)??;
    let mut seals = Items::new(alloc);
    seals.push(alloc, sealed)?;
    let link = Link::new(
        alloc,
        at.number,
        Stage::AwaitsDone(sent.link, callee, answering),
    )?;
    Ok(goes_on_unchanged(alloc, link, sent.bytes, seals))
}

fn answering_for(
    alloc: Global,
    presenting: Presenting,
    challenge: u64,
) -> Result<(Answering, Blob), AllocError>
    ensures answering { IfOk result (λ made. made.0 ≡ record { session = presenting.held.session; nonce = presenting.nonce }) }
    ensures bytes { IfOk result (λ made. made.1 ≡ authorizer_bytes presenting (Some challenge)) }
{
    presenting.answers(alloc, challenge)
}

//! The second authorizer.

ghost use Rattle.std.specs.Prelude.{◌≡◌, ◌<◌, ◌^◌, [], ◌∷◌, length, IfOk};
ghost use Rattle.cx_authorize.specs.Daemon.{Awaited};
ghost use Rattle.cx_authorize.specs.Passing.{IsAdmitted};
ghost use Rattle.cx_authorize.specs.declared.judging.Shown.{Shown};
ghost use Rattle.cx_rules_session.specs.cx_dice.specs.Draws.{connection_of};
ghost use Rattle.cx_node.specs.Made.{going_on};
ghost use Rattle.cx_node.specs.cx_rules.specs.Acceptor.{finished};
ghost use Rattle.cx_rules_session.specs.Envelopes.{authorize_reply_content, session_sealed};
ghost use Rattle.cx_rules_session.specs.IncomingLinks.{authority_of, authorized_frame, authorizes, done_sent, looked_entry, on_second};
ghost use Rattle.cx_rules_session.specs.Kinds.{entered_before};
ghost use Rattle.cx_steps.specs.declared.seals.DrawMark.TheVariants as draw;
ghost use Rattle.cx_steps.specs.declared.seals.SealEntry.TheVariants.{Drawn};
ghost use Rattle.cx_node.specs.steps.Making.{keeping};
ghost use Rattle.cx_verifying.specs.Rows.{Makes};
ghost use Rattle.cx_verifying.specs.Stages.{awaiting_proof, awaiting_signature};

use crate::judged::{looked, turn_away_looked};
use crate::links::{Link, Stage};
use crate::owners::SessionOwner;
use cx_authorize::{Authorized, Awaiting, SecondPassed};
use cx_base::{Duplicate, Items, Owner};
use cx_control::AuthDone;
use cx_holdings::MonClient;
use cx_link::{Finished, PlainLink, tag};
use cx_node::{Moment, NoRow, NodeRow, control, goes_on_unchanged, unless_refused};
use cx_steps::{DrawMark, SealEntry};
use std::alloc::{AllocError, Global};

// The authorizer of this payload is judged by the view as it is now; it has to answer the challenge.
pub(crate) fn on_second(
    alloc: Global,
    mon_client: &MonClient,
    at: &Moment<'_>,
    link: PlainLink,
    awaiting: Awaiting,
    payload: &[u8],
) -> Result<NodeRow<Link, ()>, NoRow>
    ensures { Makes mon_client.now at.now (awaiting_proof at.now.number link awaiting) (λ a. on_second a awaiting payload.now) result }
{
    let view = mon_client.view();
    let secret = at.draw.connection_secret();
    let mut opened = Items::new(alloc);
    match awaiting.check(alloc, payload, &view, at.reading, &secret, &mut opened) {
        Ok(passed) => authorize_looked(alloc, mon_client, at, link, opened, passed),
        Err(why) => turn_away_looked(alloc, mon_client, at, opened, why),
    }
}

// One that passes is answered, behind what opened of it.
fn authorize_looked(
    alloc: Global,
    mon_client: &MonClient,
    at: &Moment<'_>,
    link: PlainLink,
    opened: Items<SealEntry>,
    passed: SecondPassed,
) -> Result<NodeRow<Link, ()>, NoRow>
    requires { length passed.bytes < 2 ^ 32 }
    ensures { (awaited : Awaited) (shown : Shown) → IsAdmitted mon_client.now.view at.now.reading (connection_of at.now.draw.now.bytes) shown passed
        → Makes mon_client.now at.now (awaiting_proof at.now.number link awaited)
        (λ a. entered_before (looked_entry a) (authorizes a opened shown.ticket shown.authorize.nonce)) result }
{
    let made = authorize(alloc, mon_client, at, link, passed);
    looked(alloc, mon_client, at, opened, made)
}

// The secret of the connection is drawn for the entity of the ticket, and sent behind that it was drawn.
fn authorize(
    alloc: Global,
    mon_client: &MonClient,
    at: &Moment<'_>,
    link: PlainLink,
    passed: SecondPassed,
) -> Result<NodeRow<Link, ()>, NoRow>
    requires { length passed.bytes < 2 ^ 32 }
    ensures { (awaited : Awaited) (shown : Shown) → IsAdmitted mon_client.now.view at.now.reading (connection_of at.now.draw.now.bytes) shown passed
        → Makes mon_client.now at.now (awaiting_proof at.now.number link awaited) (λ a. authorizes a [] shown.ticket shown.authorize.nonce) result }
{
    let drawn = drawn_for(alloc, at, &passed.authorized)?;
    let me = mon_client.node_name(alloc)?;
    let made = finishes(alloc, mon_client, at, link, passed);
    let row = unless_refused(alloc, &me, at.number, drawn, made)?;
    Ok(row)
}

fn drawn_for(
    alloc: Global,
    at: &Moment<'_>,
    authorized: &Authorized,
) -> Result<Items<SealEntry>, AllocError>
    ensures { IfOk result (λ drawn. drawn ≡ Drawn (draw.Connection (connection_of at.now.draw.now.bytes) authorized.now.ticket.name) ∷ []) }
{
    let for_whom = authorized.entity().copy(alloc)?;
    let secret = at.draw.connection_secret();
    let mut drawn = Items::new(alloc);
    drawn.push(
        alloc,
        SealEntry::Drawn(DrawMark::Connection { secret, for_whom }),
    )?;
    Ok(drawn)
}

// AUTH_DONE and AUTH_SIGNATURE are sent; the link is secured.
fn finishes(
    alloc: Global,
    mon_client: &MonClient,
    at: &Moment<'_>,
    link: PlainLink,
    passed: SecondPassed,
) -> Result<NodeRow<Link, ()>, NoRow>
    requires { length passed.bytes < 2 ^ 32 }
    ensures { (awaited : Awaited) (shown : Shown) → IsAdmitted mon_client.now.view at.now.reading (connection_of at.now.draw.now.bytes) shown passed
        → Makes mon_client.now at.now (awaiting_proof at.now.number link awaited)
        (λ a. done_sent a [] (session_sealed shown.ticket.session (authorize_reply_content shown.authorize.nonce (connection_of a.draw)) ∷ []) (authority_of a shown.ticket)
        (finished a.link shown.ticket.session (connection_of a.draw) (authorized_frame shown.ticket shown.authorize.nonce (connection_of a.draw)))) result }
{
    let SecondPassed {
        authorized,
        bytes,
        sealed,
    } = passed;
    let session = authorized.session_key();
    let done = AuthDone {
        gid: authorized.gid(),
        mode: 2,
        payload: bytes,
    };
    let frame = control(alloc, tag::AUTH_DONE, &done)?;
    let finished = link.finish(alloc, &session, &at.draw.connection_secret(), &frame)?;
    let row = awaits_signature(alloc, at, authorized, sealed, finished)?;
    Ok(row)
}

// What finishes the link is sent.
fn awaits_signature(
    alloc: Global,
    at: &Moment<'_>,
    authorized: Authorized,
    sealed: SealEntry,
    finished: Finished,
) -> Result<NodeRow<Link, ()>, AllocError>
    ensures { IfOk result (λ row. row ≡ keeping (going_on (awaiting_signature at.now.number finished.signing authorized) finished.bytes (sealed ∷ finished.seals))) }
{
    let owner = SessionOwner::new(alloc, authorized)?;
    let mut seals = Items::new(alloc);
    seals.push(alloc, sealed)?;
    seals.append(alloc, finished.seals)?;
    let link = Link::new(
        alloc,
        at.number,
        Stage::AwaitsSignature(finished.signing, owner),
    )?;
    Ok(goes_on_unchanged(alloc, link, finished.bytes, seals))
}

//! The first authorizer.

ghost use Rattle.std.specs.Prelude.{◌<◌, ◌^◌, [], ◌∷◌, length};
ghost use Rattle.cx_authorize.specs.Passing.{IsChallenged};
ghost use Rattle.cx_authorize.specs.declared.judging.Shown.{Shown};
ghost use Rattle.cx_rules_session.specs.cx_dice.specs.Draws.{challenge_of};
ghost use Rattle.cx_link.specs.Wires.{wired};
ghost use Rattle.cx_node.specs.cx_rules.specs.Acceptor.{AwaitsProof, AwaitsRequest};
ghost use Rattle.cx_rules_session.specs.Envelopes.{authorize_challenge_content, sends_holding, session_sealed};
ghost use Rattle.cx_rules_session.specs.IncomingLinks.{challenges, looked_entry, on_first, sealed_challenge_frame};
ghost use Rattle.cx_rules_session.specs.Kinds.{entered_before};
ghost use Rattle.cx_verifying.specs.Rows.{Makes};

use crate::judged::{looked, turn_away_looked};
use crate::links::{Link, Stage};
use cx_authorize::{First, FirstPassed};
use cx_base::Items;
use cx_control::AuthReplyMore;
use cx_holdings::MonClient;
use cx_link::{PlainLink, tag};
use cx_node::{Moment, NoRow, NodeRow, goes_on_unchanged, send_plain, unless_refused};
use cx_steps::{DrawMark, SealEntry};
use std::alloc::Global;

// The authorizer of this payload is judged by the view.
pub(crate) fn on_first(
    alloc: Global,
    mon_client: &MonClient,
    at: &Moment<'_>,
    link: PlainLink,
    payload: &[u8],
) -> Result<NodeRow<Link, ()>, NoRow>
    ensures { Makes mon_client.now at.now (wired at.now.number link AwaitsRequest) (λ a. on_first a payload.now) result }
{
    let view = mon_client.view();
    let kind = mon_client.name().kind;
    let challenge = at.draw.challenge();
    let mut opened = Items::new(alloc);
    let first = First::new(kind);
    match first.check(alloc, payload, &view, at.reading, challenge, &mut opened) {
        Ok(passed) => challenge_looked(alloc, mon_client, at, link, opened, passed),
        Err(why) => turn_away_looked(alloc, mon_client, at, opened, why),
    }
}

// One that passes is challenged, behind what opened of it.
fn challenge_looked(
    alloc: Global,
    mon_client: &MonClient,
    at: &Moment<'_>,
    link: PlainLink,
    opened: Items<SealEntry>,
    passed: FirstPassed,
) -> Result<NodeRow<Link, ()>, NoRow>
    requires { length passed.bytes < 2 ^ 32 }
    ensures { (shown : Shown) → IsChallenged mon_client.now.name.kind (challenge_of at.now.draw.now.bytes) shown passed
        → Makes mon_client.now at.now (wired at.now.number link AwaitsRequest) (λ a. entered_before (looked_entry a) (challenges a opened shown.ticket)) result }
{
    let made = challenge(alloc, mon_client, at, link, passed);
    looked(alloc, mon_client, at, opened, made)
}

// A challenge is drawn, and sent behind that it was drawn.
fn challenge(
    alloc: Global,
    mon_client: &MonClient,
    at: &Moment<'_>,
    link: PlainLink,
    passed: FirstPassed,
) -> Result<NodeRow<Link, ()>, NoRow>
    requires { length passed.bytes < 2 ^ 32 }
    ensures { (shown : Shown) → IsChallenged mon_client.now.name.kind (challenge_of at.now.draw.now.bytes) shown passed
        → Makes mon_client.now at.now (wired at.now.number link AwaitsRequest) (λ a. challenges a [] shown.ticket) result }
{
    let challenge = at.draw.challenge();
    let mut drawn = Items::new(alloc);
    drawn.push(alloc, SealEntry::Drawn(DrawMark::Challenge(challenge)))?;
    let me = mon_client.node_name(alloc)?;
    let made = awaits_proof(alloc, mon_client, at, link, passed);
    let row = unless_refused(alloc, &me, at.number, drawn, made)?;
    Ok(row)
}

// AUTH_REPLY_MORE is sent with the challenge, whose answer is waited for.
fn awaits_proof(
    alloc: Global,
    mon_client: &MonClient,
    at: &Moment<'_>,
    link: PlainLink,
    passed: FirstPassed,
) -> Result<NodeRow<Link, ()>, NoRow>
    requires { length passed.bytes < 2 ^ 32 }
    ensures { (shown : Shown) → IsChallenged mon_client.now.name.kind (challenge_of at.now.draw.now.bytes) shown passed
        → Makes mon_client.now at.now (wired at.now.number link AwaitsRequest)
        (λ a. sends_holding a (AwaitsProof (record { service = a.own.name.kind; challenge = challenge_of a.draw })) []
        (session_sealed shown.ticket.session (authorize_challenge_content (challenge_of a.draw)) ∷ []) (sealed_challenge_frame shown.ticket.session (challenge_of a.draw))) result }
{
    let FirstPassed {
        awaiting,
        bytes,
        sealed,
    } = passed;
    let sent = send_plain(
        alloc,
        link,
        tag::AUTH_REPLY_MORE,
        &AuthReplyMore { payload: bytes },
    )??;
    let mut seals = Items::new(alloc);
    seals.push(alloc, sealed)?;
    let link = Link::new(alloc, at.number, Stage::AwaitsProof(sent.link, awaiting))?;
    Ok(goes_on_unchanged(alloc, link, sent.bytes, seals))
}

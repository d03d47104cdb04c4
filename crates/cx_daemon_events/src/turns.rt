//! A turn of a link of a daemon.

ghost use Rattle.std.specs.Prelude.{◌≡◌, List, None, Some, IfOk, OnOk, OnErr};
ghost use Rattle.cx_node.specs.Tables.{without};
ghost use Rattle.cx_verifying.specs.cx_rules_session.specs.DaemonRule.{me};
ghost use Rattle.cx_node.specs.steps.Making.{own_behind};
ghost use Rattle.cx_node.specs.steps.Turns.{HasNumber, IsSettled, IsTurned};
ghost use Rattle.cx_daemon_events.specs.Kinds.{DaemonLink};
ghost use Rattle.cx_daemon_events.specs.Turns.{IsOwnTurn, with_change};

use crate::kinds::came_of_own;
use crate::links::Link;
use crate::own::Own;
use cx_monclient as connector;
use cx_node::{Came, Links, Moment, NodeRow, carries, refuses_bytes};
use cx_steps::Effects;
use std::alloc::{AllocError, Global};

// ---- what a turn came to is settled

/// The link comes back, or is shut; what is changed of the daemon's own is changed last.
pub fn settles(
    alloc: Global,
    own: &mut Own,
    links: &mut Links<Link>,
    number: u32,
    came: Came<Link, connector::BoxedChange>,
) -> Result<Effects, AllocError>
    requires numbered { HasNumber (λ link. link.number) number came }
    requires room { links.old.room ≡ Some number }
    ensures settled { (all : List DaemonLink) → links.old.links ≡ without (λ link. link.number) number all → IfOk result (λ out.
        IsSettled (λ link. link.number) with_change (me own.old) number came (record { own = own.old; links = all }) (record { own = own.new; links = links.new.links }) out) }
    ensures own { OnErr result (own.new ≡ own.old) }
    ensures err { OnErr result (links.new ≡ links.old) }
    ensures room { OnOk result (links.new.room ≡ None) }
{
    match came {
        Came::Waits(link) => {
            links.settle(number, Some(link));
            Ok(Effects::new(alloc))
        }
        Came::Refuses(why, opened) => {
            let me = own.named(alloc)?;
            let row = refuses_bytes(alloc, &me, number, why, opened)?;
            carries(alloc, links, number, false, row)
        }
        Came::Handles(NodeRow { row, change }) => {
            let out = carries(alloc, links, number, true, row)?;
            changes(own, change);
            Ok(out)
        }
    }
}

// What a row changes of the daemon's own, if anything, is changed.
fn changes(own: &mut Own, change: Option<connector::BoxedChange>)
    ensures { own.new ≡ own_behind with_change own.old change }
{
    match change {
        Some(change) => own.settle(change),
        None => (),
    }
}

// ---- a link of the daemon's own

/// What a turn of a link to the monitor came to is settled.
pub fn own_turns(
    alloc: Global,
    own: &mut Own,
    links: &mut Links<Link>,
    at: &Moment<'_>,
    link: connector::Link,
) -> Result<Effects, AllocError>
    requires number { link.number ≡ at.now.number }
    requires room { links.old.room ≡ Some at.now.number }
    ensures turned { (all : List DaemonLink) → links.old.links ≡ without (λ link. link.number) at.now.number all → IfOk result (λ out.
        IsTurned (λ link. link.number) with_change (me own.old) at.now.number (IsOwnTurn own.old at.now.reading at.now.draw.now.bytes link)
        (record { own = own.old; links = all }) (record { own = own.new; links = links.new.links }) out) }
    ensures own { OnErr result (own.new ≡ own.old) }
    ensures err { OnErr result (links.new ≡ links.old) }
    ensures room { OnOk result (links.new.room ≡ None) }
{
    let came = own_turned(alloc, own, at, link)?;
    settles(alloc, own, links, at.number, came)
}

#[tactic(auto, using(crate::proofs::OwnTurns::own_turn, crate::proofs::OwnTurns::own_number))]
fn own_turned(
    alloc: Global,
    own: &Own,
    at: &Moment<'_>,
    link: connector::Link,
) -> Result<Came<Link, connector::BoxedChange>, AllocError>
    requires { link.number ≡ at.now.number }
    ensures come { IfOk result (IsOwnTurn own.now at.now.reading at.now.draw.now.bytes link) }
    ensures number { IfOk result (HasNumber (λ link. link.number) at.now.number) }
{
    let came = connector::turned(alloc, own.mon_client(), at, link)?;
    Ok(came_of_own(came))
}

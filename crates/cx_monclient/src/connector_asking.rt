//! Requests that are sent on an open link.

ghost use Rattle.std.specs.Prelude.{◌≡◌, true, IfOk};
ghost use Rattle.cx_link.specs.Sending.{behind_ahead};
ghost use Rattle.cx_link.specs.Wires.{secured_link};
ghost use Rattle.cx_node.specs.Made.{going_on};
ghost use Rattle.cx_node.specs.cx_rules.specs.Abridged.{abridged_mon_client_link};
ghost use Rattle.cx_node.specs.cx_rules.specs.Connector as connector;
ghost use Rattle.cx_node.specs.cx_rules.specs.Connector.{Open, is_open, kept_open};
ghost use Rattle.cx_node.specs.cx_rules.specs.Requests.{asks_rotating, asks_tickets};
ghost use Rattle.cx_node.specs.steps.Stages.{keys_alone};
ghost use Rattle.cx_monclient.specs.connector.Rows.{AsksGenerations, AsksTickets, Makes};
ghost use Rattle.cx_monclient.specs.connector.Stages.{open_link};

use crate::links::{Link, OpenAhead, Stage};
use crate::making::named;
use crate::rows::BoxedChange;
use crate::{Asked, Requests, ask_rotating, ask_tickets};
use cx_base::Items;
use cx_holdings::MonClient;
use cx_link::SecureLink;
use cx_node::{Moment, NoRow, NodeRow, Row, refuses};
use std::alloc::{AllocError, Global};

/// The row by which tickets are asked for on a link that is open, by the sum of the numbers of their services (2 mds, 4 osd, 16 mgr): by what the link goes on by behind the
/// request, which is sealed ahead. Whoever carries it out has the link go on so, and until then it is as it was.
pub fn asks_tickets(
    alloc: Global,
    mon_client: &MonClient,
    at: &Moment<'_>,
    link: &Link,
    services: u32,
) -> Result<Row<OpenAhead>, AllocError>
    requires number { link.now.number ≡ at.now.number }
    requires open { is_open link.now.stage ≡ true }
    ensures { IfOk result (AsksTickets mon_client.now at.now link.now services) }
{
    match link.stage.as_ref() {
        Stage::Open(secure, requests) => {
            asks_tickets_on(alloc, mon_client, at, secure, requests, services)
        }
        Stage::AwaitsBanner(_, _) => unreachable!(),
        Stage::AwaitsHello(_, _) => unreachable!(),
        Stage::AwaitsChallenge(_, _) => unreachable!(),
        Stage::AwaitsDone(_) => unreachable!(),
        Stage::AwaitsSignature(_, _) => unreachable!(),
        Stage::AwaitsIdent(_, _) => unreachable!(),
    }
}

// The request is sealed, or the link is refused.
fn asks_tickets_on(
    alloc: Global,
    mon_client: &MonClient,
    at: &Moment<'_>,
    link: &SecureLink,
    requests: &Requests,
    services: u32,
) -> Result<Row<OpenAhead>, AllocError>
    ensures { IfOk result (AsksTickets mon_client.now at.now (open_link at.now.number link.now requests.now) services) }
{
    match ask_tickets(alloc, link, requests, services)? {
        Ok(asked) => Ok(goes_ahead(alloc, asked)),
        Err(why) => {
            let me = named(alloc, mon_client)?;
            refuses(alloc, &me, at.number, why, Items::new(alloc))
        }
    }
}

/// The row by which a daemon asks for the generations of its own type on a link that is open, likewise.
pub fn asks_generations(
    alloc: Global,
    mon_client: &MonClient,
    at: &Moment<'_>,
    link: &Link,
) -> Result<Row<OpenAhead>, AllocError>
    requires number { link.now.number ≡ at.now.number }
    requires open { is_open link.now.stage ≡ true }
    ensures { IfOk result (AsksGenerations mon_client.now at.now link.now) }
{
    match link.stage.as_ref() {
        Stage::Open(secure, requests) => {
            asks_generations_on(alloc, mon_client, at, secure, requests)
        }
        Stage::AwaitsBanner(_, _) => unreachable!(),
        Stage::AwaitsHello(_, _) => unreachable!(),
        Stage::AwaitsChallenge(_, _) => unreachable!(),
        Stage::AwaitsDone(_) => unreachable!(),
        Stage::AwaitsSignature(_, _) => unreachable!(),
        Stage::AwaitsIdent(_, _) => unreachable!(),
    }
}

// The request is sealed, or the link is refused.
fn asks_generations_on(
    alloc: Global,
    mon_client: &MonClient,
    at: &Moment<'_>,
    link: &SecureLink,
    requests: &Requests,
) -> Result<Row<OpenAhead>, AllocError>
    ensures { IfOk result (AsksGenerations mon_client.now at.now (open_link at.now.number link.now requests.now)) }
{
    match ask_rotating(alloc, link, requests, at.reading)? {
        Ok(asked) => Ok(goes_ahead(alloc, asked)),
        Err(why) => {
            let me = named(alloc, mon_client)?;
            refuses(alloc, &me, at.number, why, Items::new(alloc))
        }
    }
}

// The link is to go on behind the request.
fn goes_ahead(alloc: Global, asked: Asked) -> Row<OpenAhead>
    ensures { result ≡ going_on asked.ahead asked.bytes asked.seals }
{
    let Asked {
        ahead,
        bytes,
        seals,
    } = asked;
    cx_node::goes_on(alloc, ahead, bytes, seals)
}

// A daemon asks for the generations of its own type.
pub(crate) fn asks_rotating(
    alloc: Global,
    mon_client: &MonClient,
    at: &Moment<'_>,
    link: SecureLink,
    requests: Requests,
) -> Result<NodeRow<Link, BoxedChange>, NoRow>
    ensures { (stage : connector.Stage) → Makes mon_client.now at.now (secured_link at.now.number link.ahead stage) (λ a. asks_rotating Open a (keys_alone link.keys) requests) result }
{
    match ask_rotating(alloc, &link, &requests, at.reading)? {
        Ok(asked) => {
            let row = goes_on_asking(alloc, at, link, asked)?;
            Ok(NodeRow::keeping(row))
        }
        Err(why) => Err(NoRow::Refused(why)),
    }
}

// The link goes on, and the request waits.
fn goes_on_asking(
    alloc: Global,
    at: &Moment<'_>,
    link: SecureLink,
    asked: Asked,
) -> Result<Row<Link>, AllocError>
    requires { asked.ahead.link.from ≡ link.keys.out.counter }
    ensures { IfOk result (λ row. row ≡ going_on (open_link at.now.number (behind_ahead link asked.ahead.link) asked.ahead.requests) asked.bytes asked.seals) }
{
    let Asked {
        ahead,
        bytes,
        seals,
    } = asked;
    let mut link = link;
    link.commit(ahead.link);
    let link = Link::new(alloc, at.number, Stage::Open(link, ahead.requests))?;
    Ok(cx_node::goes_on(alloc, link, bytes, seals))
}

//! AUTH_REQUEST and AUTH_REQUEST_MORE.

ghost use Rattle.std.specs.Prelude.{[]};
ghost use Rattle.cx_link.specs.Wires.{Wire, wired};
ghost use Rattle.cx_node.specs.cx_rules.specs.Acceptor.{AwaitsRequest, denies, on_auth_request};
ghost use Rattle.cx_rules_session.specs.IncomingLinks.{IncomingStage, on_auth_request_more, on_first};
ghost use Rattle.cx_verifying.specs.Rows.{Makes};
ghost use Rattle.cx_verifying.specs.Stages.{awaiting_proof};

use crate::first::on_first;
use crate::links::Link;
use crate::second::on_second;
use cx_authorize::Awaiting;
use cx_base::Items;
use cx_control::{AuthRequest, AuthRequestMore};
use cx_holdings::MonClient;
use cx_journal::{BytesFault, LoginFault};
use cx_link::{PlainLink, code};
use cx_node::{Moment, NoRow, NodeRow, request_fault};
use std::alloc::Global;

// The method has to be 2, cephx, and 2, the secure mode, among the modes; what follows is a first authorizer.
pub(crate) fn on_auth_request(
    alloc: Global,
    mon_client: &MonClient,
    at: &Moment<'_>,
    link: PlainLink,
    read: Result<AuthRequest, BytesFault>,
) -> Result<NodeRow<Link, ()>, NoRow>
    ensures { Makes mon_client.now at.now (wired at.now.number link AwaitsRequest) (λ a. on_auth_request on_first a read) result }
{
    let request = read?;
    match request_fault(&request) {
        Some(why) => denies(alloc, mon_client, at, why),
        None => on_first(alloc, mon_client, at, link, request.payload.bytes()),
    }
}

// AUTH_BAD_METHOD is sent, with the code 95, and the link is shut.
fn denies(
    alloc: Global,
    mon_client: &MonClient,
    at: &Moment<'_>,
    why: LoginFault,
) -> Result<NodeRow<Link, ()>, NoRow>
    ensures { (wire : Wire) (stage : IncomingStage) → Makes mon_client.now at.now (wired at.now.number wire stage) (λ a. denies a 95 why []) result }
{
    let me = mon_client.node_name(alloc)?;
    let row = cx_node::denies(
        alloc,
        &me,
        at.number,
        code::NOT_SUPPORTED,
        why,
        Items::new(alloc),
    )?;
    Ok(NodeRow::keeping(row))
}

// AUTH_REQUEST_MORE holds a second authorizer.
pub(crate) fn on_auth_request_more(
    alloc: Global,
    mon_client: &MonClient,
    at: &Moment<'_>,
    link: PlainLink,
    awaiting: Awaiting,
    read: Result<AuthRequestMore, BytesFault>,
) -> Result<NodeRow<Link, ()>, NoRow>
    ensures { Makes mon_client.now at.now (awaiting_proof at.now.number link awaiting) (λ a. on_auth_request_more a awaiting read) result }
{
    let more = read?;
    on_second(alloc, mon_client, at, link, awaiting, more.payload.bytes())
}

//! Replies on an open link.

ghost use Rattle.std.specs.Prelude.{◌≡◌, ◌⊎◌, ◌<◌, ◌^◌, None, IfOk, length};
ghost use Rattle.cx_mon_grants.specs.Telling.{IfReplies, IsBodyShort};
ghost use Rattle.cx_node.specs.steps.Sending.{SendsSecure};
ghost use Rattle.cx_node.specs.steps.Stages.{keys_alone};
ghost use Rattle.cx_rules.specs.Acceptor.{Open};
ghost use Rattle.cx_rules.specs.MonitorRequests.{reply_message, responds};
ghost use Rattle.cx_rules.specs.Secured.{secure_frame};
ghost use Rattle.cx_rules.specs.declared.responses.Response.TheVariants.{Replies};
ghost use Rattle.cx_mon.specs.acceptor.Rows.{IsMonitorRow, arrived, replying, saves_of, saving};
ghost use Rattle.cx_mon.specs.acceptor.Stages.{open_link};

use crate::links::{Link, Stage};
use crate::making::logs;
use crate::own::Own;
use crate::send_message;
use cx_base::{Blob, NodeName};
use cx_journal::BytesFault;
use cx_link::{SecureLink, SentFrame};
use cx_node::{Moment, Row, refuses, refuses_bytes};
use cx_rules::{Bearer, Demand, ReplyMade, Response};
use cx_wire::{Header, REPLY};
use std::alloc::{AllocError, Global};
use std::mem;

// What the monitor, with the key server behind the response, replies to the entity.
pub(crate) fn responds(
    alloc: Global,
    own: &Own,
    at: &Moment<'_>,
    link: SecureLink,
    bearer: Bearer,
    demand: Demand,
    response: Response,
) -> Result<Row<Link>, AllocError>
    requires { IfReplies IsBodyShort response }
    ensures row { IfOk result (λ row. IsMonitorRow at.now.number (saving own.now row.save)
        (responds Open (arrived own.now at.now (open_link at.now.number link bearer)) (keys_alone link.keys) bearer demand response) row) }
    ensures save { IfOk result (λ row. (row.save ≡ None) ⊎ (row.save ≡ saves_of response)) }
{
    match response {
        Response::Refuses { why, seals } => {
            refuses(alloc, &NodeName::Monitor, at.number, why, seals)
        }
        Response::Replies(made) => replies(alloc, own, at, link, bearer, demand, made),
    }
}

// The reply is sent. Where it can't be, the link is refused behind what was drawn.
fn replies(
    alloc: Global,
    own: &Own,
    at: &Moment<'_>,
    link: SecureLink,
    bearer: Bearer,
    demand: Demand,
    mut made: ReplyMade,
) -> Result<Row<Link>, AllocError>
    requires { IsBodyShort made }
    ensures row { IfOk result (λ row. IsMonitorRow at.now.number (saving own.now row.save)
        (responds Open (arrived own.now at.now (open_link at.now.number link bearer)) (keys_alone link.keys) bearer demand (Replies made)) row) }
    ensures save { IfOk result (λ row. (row.save ≡ None) ⊎ (row.save ≡ made.save)) }
{
    let body = mem::replace(&mut made.body, Blob::new(alloc));
    match send_reply(alloc, link, demand.tid, body)? {
        Ok(sent) => stays_open(alloc, at, bearer, demand.seq, made, sent),
        Err(why) => refuses_bytes(alloc, &NodeName::Monitor, at.number, why, made.seals),
    }
}

// Sends message 18.
fn send_reply(
    alloc: Global,
    link: SecureLink,
    tid: u64,
    body: Blob,
) -> Result<Result<SentFrame, BytesFault>, AllocError>
    requires { length body < 2 ^ 32 }
    ensures { IfOk result (SendsSecure link (secure_frame link.keys (reply_message tid body))) }
{
    let header = Header {
        seq: 0,
        tid,
        type_: REPLY,
    };
    send_message(alloc, link, &header, body)
}

// The link stays open behind the message of this number.
fn stays_open(
    alloc: Global,
    at: &Moment<'_>,
    mut bearer: Bearer,
    seq: u64,
    made: ReplyMade,
    sent: SentFrame,
) -> Result<Row<Link>, AllocError>
    ensures { IfOk result (λ row. row ≡ replying at.now.number bearer seq made sent) }
{
    bearer.last = seq;
    let mut seals = made.seals;
    logs(alloc, &mut seals, made.sealed, sent.seals)?;
    let link = Link::new(alloc, at.number, Stage::Open(sent.link, bearer))?;
    Ok(Row {
        link: Some(link),
        sends: sent.bytes,
        save: made.save,
        entries: made.entries,
        seals,
    })
}

//! An operation that is sent on an open link.

ghost use Rattle.std.specs.Prelude.{◌≡◌, ℕ, true, IfOk};
ghost use Rattle.cx_base.specs.declared.nodes.NodeName.TheVariants as node;
ghost use Rattle.cx_node.specs.cx_rules.specs.Secured.{secure_frame};
ghost use Rattle.cx_client_session.specs.cx_rules_session.specs.Presenter.{is_open};
ghost use Rattle.cx_client_session.specs.cx_rules_session.specs.Sessions.{Callee, operation_message};
ghost use Rattle.cx_node.specs.steps.Sending.{SealsSecure};
ghost use Rattle.cx_wire.specs.Operations.{IsWritable};
ghost use Rattle.cx_client_session.specs.cx_client_connect.specs.presenting.Stages.{open_link};
ghost use Rattle.cx_client_session.specs.operations.Frames.{IsAheadAt, IsAheadOn, IsSent, behind_sent, held_behind, sealed_row};

use crate::{Link, Stage};
use cx_base::{Blob, Items, Operation};
use cx_holdings::MonClient;
use cx_journal::BytesFault;
use cx_link::{AheadFrame, SealedAhead, SecureLink};
use cx_node::{Moment, Row, goes_on, refuses_bytes, seal_message};
use cx_wire::{Header, OPERATION, put_operation};
use std::alloc::{AllocError, Global};

/// The row by which an operation is sent on a link that is open, under its number: by what the link goes on by behind the message, which is sealed ahead. Whoever carries it out
/// has the link go on so (`go_on`), and until then it is as it was.
pub fn sends(
    alloc: Global,
    mon_client: &MonClient,
    at: &Moment<'_>,
    link: &Link,
    number: u64,
    operation: &Operation,
) -> Result<Row<SealedAhead>, AllocError>
    requires number { link.now.number ≡ at.now.number }
    requires open { is_open link.now.stage ≡ true }
    requires writable { IsWritable operation.now }
    ensures { IfOk result (IsSent mon_client.now at.now link.now (number, operation.now)) }
{
    match link.stage.as_ref() {
        Stage::Open(secure, _, _) => sends_on(alloc, mon_client, at, secure, number, operation),
        Stage::AwaitsBanner(_, _) => unreachable!(),
        Stage::AwaitsHello(_, _) => unreachable!(),
        Stage::AwaitsChallenge(_, _, _) => unreachable!(),
        Stage::AwaitsDone(_, _, _) => unreachable!(),
        Stage::AwaitsSignature(_, _) => unreachable!(),
        Stage::AwaitsIdent(_, _, _) => unreachable!(),
        Stage::AwaitsReconnect(_, _, _) => unreachable!(),
    }
}

// The message is sealed, or the link is refused, whomever it calls.
fn sends_on(
    alloc: Global,
    mon_client: &MonClient,
    at: &Moment<'_>,
    link: &SecureLink,
    number: u64,
    operation: &Operation,
) -> Result<Row<SealedAhead>, AllocError>
    requires { IsWritable operation.now }
    ensures { IfOk result (λ row. (callee : Callee) (cookie : ℕ) → IsSent mon_client.now at.now (open_link at.now.number link.now callee cookie) (number, operation.now) row) }
{
    let made = seal_operation(alloc, link, number, operation)?;
    let row = sealed_row(alloc, mon_client, at, made)?;
    Ok(row)
}

// The row of a frame that was sealed ahead, or couldn't be sealed.
fn sealed_row(
    alloc: Global,
    mon_client: &MonClient,
    at: &Moment<'_>,
    made: Result<AheadFrame, BytesFault>,
) -> Result<Row<SealedAhead>, AllocError>
    ensures { IfOk result (λ row. row ≡ sealed_row (node.Entity mon_client.now.name) at.now.number made) }
{
    match made {
        Ok(sealed) => Ok(goes_on(alloc, sealed.ahead, sealed.bytes, sealed.seals)),
        Err(why) => {
            let me = mon_client.node_name(alloc)?;
            refuses_bytes(alloc, &me, at.number, why, Items::new(alloc))
        }
    }
}

// Seals message 42: its seq is the operation's number, which is its tid too.
fn seal_operation(
    alloc: Global,
    link: &SecureLink,
    number: u64,
    operation: &Operation,
) -> Result<Result<AheadFrame, BytesFault>, AllocError>
    requires { IsWritable operation.now }
    ensures { IfOk result (SealsSecure link.now (secure_frame link.now.keys (operation_message (number, operation.now)))) }
{
    let mut body = Blob::new(alloc);
    put_operation(alloc, &mut body, operation)?;
    let header = Header {
        seq: number,
        tid: number,
        type_: OPERATION,
    };
    seal_message(alloc, link, &header, body)
}

/// A link that is open goes on behind a message that was sealed ahead on it. It wants no memory.
#[tactic(auto, using(crate::proofs::operations::Ahead::ahead_held, crate::proofs::operations::Ahead::sent_held))]
pub fn go_on(link: &mut Link, ahead: SealedAhead)
    requires { IsAheadOn link.old ahead }
    ensures { link.new ≡ behind_sent link.old ahead }
{
    stage_goes_on(link.stage.as_mut(), ahead);
}

fn stage_goes_on(stage: &mut Stage, ahead: SealedAhead)
    requires { IsAheadAt stage.old ahead }
    ensures { stage.new ≡ held_behind stage.old ahead }
{
    match stage {
        Stage::Open(link, _, _) => link.commit(ahead),
        Stage::AwaitsBanner(_, _) => unreachable!(),
        Stage::AwaitsHello(_, _) => unreachable!(),
        Stage::AwaitsChallenge(_, _, _) => unreachable!(),
        Stage::AwaitsDone(_, _, _) => unreachable!(),
        Stage::AwaitsSignature(_, _) => unreachable!(),
        Stage::AwaitsIdent(_, _, _) => unreachable!(),
        Stage::AwaitsReconnect(_, _, _) => unreachable!(),
    }
}

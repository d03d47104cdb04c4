//! What comes of an authorizer, whether it passes or not.

ghost use Rattle.std.specs.Prelude.{◌≡◌, [], Err, IfOk};
ghost use Rattle.cx_authorize.specs.declared.refusals.AuthRefusal.TheVariants as refusal;
ghost use Rattle.cx_link.specs.Wires.{Wire, wired};
ghost use Rattle.cx_node.specs.cx_rules.specs.Acceptor.{denies_for};
ghost use Rattle.cx_node.specs.cx_rules.specs.Rows.{with_opened};
ghost use Rattle.cx_rules_session.specs.IncomingLinks.{IncomingRow, IncomingStage, looked_entry, ticket_fault, turns_away};
ghost use Rattle.cx_rules_session.specs.Kinds.{entered_before};
ghost use Rattle.cx_node.specs.declared.steps_rows.NoRow.TheVariants.{OutOfMemory};
ghost use Rattle.cx_verifying.specs.Rows.{Makes, MakesRow, arrived};
ghost use Rattle.cx_verifying.specs.Stages.{IncomingLink};

use crate::links::Link;
use cx_authorize::{AuthFault, AuthRefusal};
use cx_base::{Duplicate, Items};
use cx_holdings::MonClient;
use cx_journal::{BytesFault, Entry, Looked, Reason, TicketFault};
use cx_link::code;
use cx_node::{Moment, NoRow, NodeRow, denies_for, entered_before, unless_refused};
use cx_steps::SealEntry;
use std::alloc::{AllocError, Global};

// What was made of an authorizer stands behind what opened of it; that the daemon looked at its view is entered first, in each case.
pub(crate) fn looked(
    alloc: Global,
    mon_client: &MonClient,
    at: &Moment<'_>,
    opened: Items<SealEntry>,
    made: Result<NodeRow<Link, ()>, NoRow>,
) -> Result<NodeRow<Link, ()>, NoRow>
    ensures row { (link : IncomingLink) (due : IncomingRow) → link.number ≡ at.now.number → MakesRow (arrived mon_client.now at.now link) due made
        → MakesRow (arrived mon_client.now at.now link) (entered_before (looked_entry (arrived mon_client.now at.now link)) (with_opened opened due)) result }
    ensures wanting { made ≡ Err OutOfMemory → result ≡ Err OutOfMemory }
{
    let me = mon_client.node_name(alloc)?;
    let row = unless_refused(alloc, &me, at.number, opened, made)?;
    let first = looked_entry(alloc, mon_client, at)?;
    let entered = entered_before(alloc, first, row)?;
    Ok(entered)
}

fn looked_entry(alloc: Global, mon_client: &MonClient, at: &Moment<'_>) -> Result<Entry, AllocError>
    ensures { (link : IncomingLink) → link.number ≡ at.now.number → IfOk result (λ entry. entry ≡ looked_entry (arrived mon_client.now at.now link)) }
{
    let daemon = mon_client.name().copy(alloc)?;
    Ok(Entry::Looked(Looked {
        daemon,
        link: at.number,
        view: mon_client.view(),
    }))
}

// An authorizer that doesn't pass, behind what opened of it.
pub(crate) fn turn_away_looked(
    alloc: Global,
    mon_client: &MonClient,
    at: &Moment<'_>,
    opened: Items<SealEntry>,
    why: AuthRefusal,
) -> Result<NodeRow<Link, ()>, NoRow>
    ensures row { (wire : Wire) (stage : IncomingStage) → Makes mon_client.now at.now (wired at.now.number wire stage)
        (λ a. entered_before (looked_entry a) (turns_away a opened why)) result }
    ensures wanting { why ≡ refusal.OutOfMemory → result ≡ Err OutOfMemory }
{
    let made = turn_away(alloc, mon_client, at, why);
    looked(alloc, mon_client, at, opened, made)
}

// One that can't be read is refused, any other that doesn't pass denied.
fn turn_away(
    alloc: Global,
    mon_client: &MonClient,
    at: &Moment<'_>,
    why: AuthRefusal,
) -> Result<NodeRow<Link, ()>, NoRow>
    ensures row { (wire : Wire) (stage : IncomingStage) → Makes mon_client.now at.now (wired at.now.number wire stage) (λ a. turns_away a [] why) result }
    ensures wanting { why ≡ refusal.OutOfMemory → result ≡ Err OutOfMemory }
{
    match why {
        AuthRefusal::Malformed(place) => Err(NoRow::from(BytesFault::Malformed(place))),
        AuthRefusal::WrongService { kept, got } => {
            denies(alloc, mon_client, at, Reason::WrongService { kept, got })
        }
        AuthRefusal::Ticket { fault, blob } => {
            denies(
                alloc,
                mon_client,
                at,
                Reason::Ticket(ticket_fault(fault), blob),
            )
        }
        AuthRefusal::OutOfMemory => Err(NoRow::OutOfMemory),
    }
}

// AUTH_BAD_METHOD is sent, with the code 13, and the link is shut.
fn denies(
    alloc: Global,
    mon_client: &MonClient,
    at: &Moment<'_>,
    why: Reason,
) -> Result<NodeRow<Link, ()>, NoRow>
    ensures { (wire : Wire) (stage : IncomingStage) → Makes mon_client.now at.now (wired at.now.number wire stage) (λ a. denies_for a 13 why []) result }
{
    let me = mon_client.node_name(alloc)?;
    let row = denies_for(
        alloc,
        &me,
        at.number,
        code::PERMISSION_DENIED,
        why,
        Items::new(alloc),
    )?;
    Ok(NodeRow::keeping(row))
}

// A fault of a ticket, or of what was shown with it, as a journal tells it.
fn ticket_fault(fault: AuthFault) -> TicketFault
    ensures { result ≡ ticket_fault fault }
{
    match fault {
        AuthFault::UnknownGeneration { id } => TicketFault::UnknownGeneration(id),
        AuthFault::TicketUnopened { id } => TicketFault::TicketUnopened(id),
        AuthFault::GidDiffers { claimed, sealed } => TicketFault::GidDiffers { claimed, sealed },
        AuthFault::Expired { expires, now } => TicketFault::Expired(expires, now),
        AuthFault::AuthorizerUnopened => TicketFault::AuthorizerUnopened,
        AuthFault::ChallengeWrong { expected, got } => TicketFault::ChallengeWrong {
            expected,
            got,
        },
    }
}

//! A message that was taken: its operation ends, and that is entered, answered and acknowledged.

ghost use Rattle.std.specs.Prelude.{◌≡◌, ◌≤◌, [], ◌∷◌, IfOk, length};
ghost use Rattle.cx_base.specs.declared.operations.Operation.{Operation};
ghost use Rattle.cx_desk.specs.Held.{handlers_of};
ghost use Rattle.cx_journal.specs.declared.entries.Entry.TheVariants as entry;
ghost use Rattle.cx_node.specs.cx_rules.specs.Acceptor.{Open};
ghost use Rattle.cx_node.specs.cx_rules.specs.Messages.{acknowledgement, secure_frames};
ghost use Rattle.cx_node.specs.cx_rules.specs.Rows.{secure_sent};
ghost use Rattle.cx_daemon_session.specs.cx_rules_session.specs.Hosting.{comes_to, handles, outcome_of};
ghost use Rattle.cx_daemon_session.specs.cx_rules_session.specs.Kinds.{entered_before};
ghost use Rattle.cx_node.specs.steps.Stages.{keys_alone};
ghost use Rattle.cx_daemon_session.specs.cx_verifying.specs.Rows.{Makes};
ghost use Rattle.cx_daemon_session.specs.cx_verifying.specs.Stages.{open_link};
ghost use Rattle.cx_wire.specs.Operations.{IsWritable};
ghost use Rattle.cx_daemon_session.specs.coming.Hosted.{IsCome};
ghost use Rattle.cx_daemon_session.specs.messages.Answering.{answering};
ghost use Rattle.cx_daemon_session.specs.messages.Pending.{open_arrival};
ghost use Rattle.cx_daemon_session.specs.messages.Performing.{handled_so, performed};

use crate::answers::send_answer;
use crate::instructions::Instruction;
use crate::performing::{Performed, perform};
use crate::{Link, Served, Stage, come, entered};
use cx_base::{Blob, Duplicate, Items, Operation, Text};
use cx_caps::CapText;
use cx_desk::Desk;
use cx_holdings::MonClient;
use cx_journal::{Entry, Handled, Outcome};
use cx_link::SecureLink;
use cx_node::{Came, Moment, NoRow, NodeRow, goes_on_unchanged};
use cx_steps::SealEntry;
use std::alloc::{AllocError, Global};

/// The operation of a message that was taken ends, and that is entered, answered and acknowledged.
pub(crate) fn handled(
    alloc: Global,
    mon_client: &MonClient,
    at: &Moment<'_>,
    desk: &Desk,
    link: SecureLink,
    served: Served,
    instruction: Instruction,
    opened: Items<SealEntry>,
) -> Result<Came<Link, ()>, AllocError>
    ensures { IfOk result (IsCome mon_client.now at.now.number opened
        (comes_to (handles (open_arrival mon_client.now at.now link served) (keys_alone link.keys) served instruction (outcome_of (handlers_of desk.now) served.caps instruction.operation)))) }
{
    let Instruction {
        seq,
        tid,
        operation,
    } = instruction;
    let done = performs(alloc, desk, &served, operation)?;
    let made = answers(alloc, mon_client, at, link, served, seq, tid, done);
    come(alloc, mon_client, at, opened, made)
}

// What becomes of an operation in this session.
#[tactic(auto, using(crate::proofs::messages::Bounded::answer_bounded))]
fn performs(
    alloc: Global,
    desk: &Desk,
    served: &Served,
    operation: Operation,
) -> Result<Performed, AllocError>
    requires { IsWritable operation }
    ensures done { IfOk result (λ done. done ≡ performed (handlers_of desk.now) served.now.caps operation) }
    ensures short { IfOk result (λ done. length done.answer ≤ 65536) }
{
    let caps = cap_text(alloc, &served.caps)?;
    perform(alloc, desk, caps, operation)
}

// The capability text of a session. A ticket that opens has one; where it had none, the answer would be want of memory.
fn cap_text(alloc: Global, caps: &Text) -> Result<CapText, AllocError>
    ensures { IfOk result (λ text. text ≡ caps.now) }
{
    match CapText::read(alloc, caps) {
        Ok(text) => Ok(text),
        Err(_) => Err(AllocError),
    }
}

// An operation that ended so is entered; the answer and ACK are sent in one piece.
fn answers(
    alloc: Global,
    mon_client: &MonClient,
    at: &Moment<'_>,
    link: SecureLink,
    served: Served,
    seq: u64,
    tid: u64,
    done: Performed,
) -> Result<NodeRow<Link, ()>, NoRow>
    requires { length done.answer ≤ 65536 }
    ensures { Makes mon_client.now at.now (open_link at.now.number link served) (λ a. entered_before (handled_so a served seq done)
        (secure_sent a (keys_alone link.keys) (λ behind. Open behind served) [] (secure_frames link.keys (answering tid done.outcome done.answer ∷ acknowledgement seq ∷ [])))) result }
{
    let Performed {
        operation,
        outcome,
        answer,
    } = done;
    let first = handled_entry(alloc, mon_client, &served, seq, operation, outcome)?;
    let made = sends(
        alloc, mon_client, at, link, served, seq, tid, outcome, answer,
    );
    entered(alloc, mon_client, at, first, made)
}

fn handled_entry(
    alloc: Global,
    mon_client: &MonClient,
    served: &Served,
    seq: u64,
    operation: Operation,
    outcome: Outcome,
) -> Result<Entry, AllocError>
    ensures { IfOk result (λ first. first ≡ entry.Handled (record {
      daemon = mon_client.now.name;
      session = served.now.number;
      epoch = served.now.epoch;
      cookie = served.now.cookie;
      seq = seq;
      operation = operation;
      outcome = outcome;
    })) }
{
    let daemon = mon_client.name().copy(alloc)?;
    Ok(Entry::Handled(Handled {
        daemon,
        session: served.number,
        epoch: served.epoch,
        cookie: served.cookie,
        seq,
        operation,
        outcome,
    }))
}

// The answer and ACK are sent, and the link stays open.
fn sends(
    alloc: Global,
    mon_client: &MonClient,
    at: &Moment<'_>,
    link: SecureLink,
    served: Served,
    seq: u64,
    tid: u64,
    outcome: Outcome,
    answer: Blob,
) -> Result<NodeRow<Link, ()>, NoRow>
    requires { length answer ≤ 65536 }
    ensures { Makes mon_client.now at.now (open_link at.now.number link served)
        (λ a. secure_sent a (keys_alone link.keys) (λ behind. Open behind served) [] (secure_frames link.keys (answering tid outcome answer ∷ acknowledgement seq ∷ []))) result }
{
    let sent = send_answer(alloc, link, seq, tid, outcome, answer)??;
    let link = Link::new(alloc, at.number, Stage::Open(sent.link, served))?;
    Ok(goes_on_unchanged(alloc, link, sent.bytes, sent.seals))
}

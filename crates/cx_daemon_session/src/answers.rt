//! What is sent behind an operation that was taken: message 43, and ACK.

ghost use Rattle.std.specs.Prelude.{◌≡◌, ◌≤◌, [], ◌∷◌, All, IfOk, length};
ghost use Rattle.cx_frame.specs.Frames.{IsAnnounceable};
ghost use Rattle.cx_node.specs.cx_rules.specs.Messages.{acknowledgement, message, secure_frames};
ghost use Rattle.cx_daemon_session.specs.cx_rules_session.specs.Hosting.{outcome_number};
ghost use Rattle.cx_node.specs.steps.Sending.{SendsSecure};
ghost use Rattle.cx_wire.specs.Operations.{answer_layout};
ghost use Rattle.cx_daemon_session.specs.messages.Answering.{answering};

use cx_base::{Blob, Items};
use cx_control::Ack;
use cx_frame::Frame;
use cx_journal::{BytesFault, Outcome};
use cx_link::{SecureLink, SentFrame};
use cx_node::{control, message_frame, send_frames};
use cx_wire::{ANSWER, Answer, Header, put_answer};
use std::alloc::{AllocError, Global};

/// The tag of ACK.
const ACK: u8 = 20;

/// Answers the operation of this tid, which ended so, and acknowledges its message, in one piece; or says why that can't be sealed: then the link is
/// given up.
pub(crate) fn send_answer(
    alloc: Global,
    link: SecureLink,
    seq: u64,
    tid: u64,
    outcome: Outcome,
    answer: Blob,
) -> Result<Result<SentFrame, BytesFault>, AllocError>
    requires { length answer ≤ 65536 }
    ensures { IfOk result (SendsSecure link (secure_frames link.keys (answering tid outcome answer ∷ acknowledgement seq ∷ []))) }
{
    let mut frames = Items::new(alloc);
    frames.push(alloc, answer_frame(alloc, tid, outcome, answer)?)?;
    frames.push(alloc, acknowledgement_frame(alloc, seq)?)?;
    send_frames(alloc, link, frames.all())
}

// Message 43.
#[tactic(auto, using(crate::proofs::messages::Answering::answer_short))]
fn answer_frame(
    alloc: Global,
    tid: u64,
    outcome: Outcome,
    answer: Blob,
) -> Result<Frame, AllocError>
    requires { length answer ≤ 65536 }
    ensures frame { IfOk result (λ frame. frame ≡ answering tid outcome answer) }
    ensures announced { IfOk result IsAnnounceable }
{
    let body = answer_body(alloc, outcome, answer)?;
    let header = Header {
        seq: 0,
        tid,
        type_: ANSWER,
    };
    message_frame(alloc, &header, body)
}

fn answer_body(alloc: Global, outcome: Outcome, answer: Blob) -> Result<Blob, AllocError>
    requires { length answer ≤ 65536 }
    ensures { IfOk result (λ body. body ≡ answer_layout.form.text (record { outcome = outcome_number outcome; bytes = answer })) }
{
    let value = Answer {
        outcome: outcome_number(outcome),
        bytes: answer,
    };
    let mut body = Blob::new(alloc);
    put_answer(alloc, &mut body, &value)?;
    Ok(body)
}

fn outcome_number(outcome: Outcome) -> u8
    ensures value { result ≡ outcome_number outcome }
    ensures few { result ≤ 2 }
{
    match outcome {
        Outcome::Done => 0,
        Outcome::Denied => 1,
        Outcome::NoHandler => 2,
    }
}

// ACK.
#[tactic(auto, using(crate::proofs::messages::Answering::control_announced))]
fn acknowledgement_frame(alloc: Global, seq: u64) -> Result<Frame, AllocError>
    ensures frame { IfOk result (λ frame. frame ≡ acknowledgement seq) }
    ensures announced { IfOk result IsAnnounceable }
{
    control(alloc, ACK, &Ack { seq })
}

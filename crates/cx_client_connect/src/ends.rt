//! How an operation ended.

ghost use Rattle.std.specs.Prelude.{◌≡◌, IfOk, Ok};
ghost use Rattle.cx_node.specs.messages.Reading.{with_body};
ghost use Rattle.cx_rules_session.specs.cx_rules.specs.Messages.{message_in};
ghost use Rattle.cx_rules_session.specs.Presenter.{end_in, outcome_by};

use cx_frame::Frame;
use cx_journal::{BytesFault, Outcome};
use cx_node::{body_in, header_in, whole};
use cx_wire::{ANSWER, Answer, Header};
use std::alloc::{AllocError, Global};
use std::marker::Model;

/// How the operation of this tid ended, as a daemon says in message 43.
#[derive(Clone, Copy)]
pub struct OperationEnd {
    pub tid: u64,
    pub outcome: Outcome,
}

impl Model for OperationEnd {
    ghost use Rattle.cx_rules_session.specs.Presenter as rules;

    ghost Value = { rules.OperationEnd };

    ghost view = { λ e. record { tid = e.tid; outcome = e.outcome } };

    ghost inverse = { λ e. record { tid = e.tid; outcome = e.outcome } };
}

/// What a frame on an open link to a daemon says of an operation, or why it isn't message 43 with an answer. The data of the answer isn't kept.
pub fn end_in(alloc: Global, frame: &Frame) -> Result<Result<OperationEnd, BytesFault>, AllocError>
    ensures { IfOk result (λ read. read ≡ end_in (message_in frame.now)) }
{
    match header_in(alloc, frame)? {
        Err(why) => Ok(Err(why)),
        Ok(header) => end_by(alloc, &header, body_in(frame)),
    }
}

fn end_by(
    alloc: Global,
    header: &Header,
    body: &[u8],
) -> Result<Result<OperationEnd, BytesFault>, AllocError>
    ensures { IfOk result (λ read. read ≡ end_in (with_body body.now (Ok header.now))) }
{
    if header.type_ != ANSWER {
        return Ok(Err(BytesFault::Unexpected(17)));
    }
    match whole::<Answer>(alloc, body)? {
        Err(why) => Ok(Err(why)),
        Ok(answer) => Ok(Ok(OperationEnd {
            tid: header.tid,
            outcome: outcome_by(answer.outcome),
        })),
    }
}

// An outcome by its number in message 43.
fn outcome_by(number: u8) -> Outcome
    ensures { result ≡ outcome_by number }
{
    match number {
        0 => Outcome::Done,
        1 => Outcome::Denied,
        _ => Outcome::NoHandler,
    }
}

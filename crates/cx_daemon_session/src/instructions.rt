//! Operations, as messages bring them.

ghost use Rattle.std.specs.Prelude.{◌≡◌, IfOk, Ok};
ghost use Rattle.cx_node.specs.cx_rules.specs.Messages.{message_in};
ghost use Rattle.cx_node.specs.cx_rules.specs.Payloads.{whole};
ghost use Rattle.cx_daemon_session.specs.cx_rules_session.specs.Hosting.{instruction_of};
ghost use Rattle.cx_wire.specs.Operations.{IsWritable, operation_layout};

use cx_base::Operation;
use cx_control::WireRefusal;
use cx_frame::Frame;
use cx_journal::BytesFault;
use cx_node::{body_in, header_in};
use cx_wire::{Header, OPERATION, read_operation};
use std::alloc::{AllocError, Global};
use std::marker::Model;

/// An operation as message 42 brings it: the message's seq and tid, and the operation, whose texts and data have the bounds of that message.
#[derive(Drop)]
pub struct Instruction {
    pub(crate) seq: u64,
    pub(crate) tid: u64,
    pub(crate) operation: Operation,
}

impl Model for Instruction {
    ghost use Rattle.cx_daemon_session.specs.cx_rules_session.specs.Hosting as hosting;
    ghost use Rattle.cx_wire.specs.Operations.{IsWritable};

    ghost Value = { hosting.Instruction };

    ghost view = { λ i. record { seq = i.seq; tid = i.tid; operation = i.operation } };

    ghost invariant = { λ i. IsWritable i.operation };
}

/// The operation that a frame on an open link brings, or why it brings none: it is no message, a message of another type than 42, or its body is no
/// operation.
pub fn instruction_in(
    alloc: Global,
    frame: &Frame,
) -> Result<Result<Instruction, BytesFault>, AllocError>
    ensures { IfOk result (λ read. read ≡ instruction_of (message_in frame.now)) }
{
    match header_in(alloc, frame)? {
        Ok(header) => instructed(alloc, &header, body_in(frame)),
        Err(why) => Ok(Err(why)),
    }
}

// The same of a message with this header and this body.
fn instructed(
    alloc: Global,
    header: &Header,
    body: &[u8],
) -> Result<Result<Instruction, BytesFault>, AllocError>
    ensures { IfOk result (λ read. read ≡ instruction_of (Ok (record { header = header.now; body = body.now }))) }
{
    if header.type_ != OPERATION {
        return Ok(Err(BytesFault::Unexpected(17)));
    }
    match operation_in(alloc, body)? {
        Ok(operation) => Ok(Ok(Instruction {
            seq: header.seq,
            tid: header.tid,
            operation,
        })),
        Err(why) => Ok(Err(why)),
    }
}

// The operation that all of these bytes spell.
fn operation_in(alloc: Global, body: &[u8]) -> Result<Result<Operation, BytesFault>, AllocError>
    ensures read { IfOk result (λ read. read ≡ whole operation_layout.form body.now) }
    ensures writable { IfOk result (λ read. IfOk read IsWritable) }
{
    match read_operation(alloc, body) {
        Ok(operation) => Ok(Ok(operation)),
        Err(WireRefusal::Malformed(place)) => Ok(Err(BytesFault::Malformed(place))),
        Err(WireRefusal::OutOfMemory) => Err(AllocError),
    }
}

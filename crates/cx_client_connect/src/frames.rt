//! The frames by which a session goes on.

ghost use Rattle.std.specs.Prelude.{◌≡◌, ◌<◌, ◌^◌, ◌++◌, All, IfOk, OnOk, filter, length, map, nat_lt};
ghost use Rattle.cx_control.specs.Reconnects.{session_reconnect_layout};
ghost use Rattle.cx_frame.specs.Frames.{IsAnnounceable};
ghost use Rattle.cx_rules_session.specs.cx_rules.specs.Holdings.{MonClient};
ghost use Rattle.cx_rules_session.specs.cx_rules.specs.Messages.{secure_frames};
ghost use Rattle.cx_rules_session.specs.cx_rules.specs.Payloads.{control};
ghost use Rattle.cx_rules_session.specs.Sessions.{acknowledged_up_to, operation_message, session_reconnect, waiting_messages};
ghost use Rattle.cx_node.specs.steps.Sending.{SendsSecure};
ghost use Rattle.cx_wire.specs.Operations.{IsWritable, operation_layout};
ghost use Rattle.cx_client_connect.specs.session.Waiting.{above};

use crate::kept::HeldSession;
use cx_base::{Addr, Blob, Operation};
use cx_control::SessionReconnect;
use cx_frame::Frame;
use cx_journal::BytesFault;
use cx_node::{SecureLink, SentFrame, message_frame, send_frames};
use cx_wire::{Header, OPERATION, put_operation};
use std::alloc::{AllocError, Global};

/// The payload of SESSION_RECONNECT, by which a client of this address and with this count of connections takes a session up again.
pub fn session_reconnect(address: Addr, global_seq: u64, session: &HeldSession) -> SessionReconnect
    ensures { (mon_client : MonClient) → mon_client.address ≡ address → mon_client.global_seq ≡ global_seq
        → control 11 session_reconnect_layout.form result ≡ session_reconnect mon_client session.now }
{
    SessionReconnect {
        addr: address,
        client_cookie: session.client_cookie,
        server_cookie: session.server_cookie,
        global_seq,
        connect_seq: session.connect_seq,
        msg_seq: 0,
    }
}

/// Message 42: an operation under its number, which is its tid too.
pub fn operation_message(
    alloc: Global,
    number: u64,
    operation: &Operation,
) -> Result<Frame, AllocError>
    requires { IsWritable operation.now }
    ensures frame { IfOk result (λ frame. frame ≡ operation_message (number, operation.now)) }
    ensures announced { IfOk result IsAnnounceable }
{
    let body = operation_body(alloc, operation)?;
    let header = Header {
        seq: number,
        tid: number,
        type_: OPERATION,
    };
    message_frame(alloc, &header, body)
}

fn operation_body(alloc: Global, operation: &Operation) -> Result<Blob, AllocError>
    requires { IsWritable operation.now }
    ensures text { IfOk result (λ body. body ≡ operation_layout.form.text operation.now) }
    ensures short { IfOk result (λ body. length body < 2 ^ 32) }
{
    let mut body = Blob::new(alloc);
    put_operation(alloc, &mut body, operation)?;
    Ok(body)
}

/// Sends again what waits in a session above this number, in order and in one piece, or says why it can't be written: then the link is given up.
pub fn send_waiting(
    alloc: Global,
    link: SecureLink,
    session: &HeldSession,
    last: u64,
) -> Result<Result<SentFrame, BytesFault>, AllocError>
    ensures { IfOk result (SendsSecure link (secure_frames link.keys (waiting_messages (acknowledged_up_to last session.now)))) }
{
    let frames = frames_above(alloc, session.waiting(), last)?;
    send_frames(alloc, link, &frames)
}

// The messages of the operations above this number.
fn frames_above(
    alloc: Global,
    waiting: &[(u64, Operation)],
    last: u64,
) -> Result<Vec<Frame>, AllocError>
    requires { All (λ ask. IsWritable ask.1) waiting.now }
    ensures frames { IfOk result (λ frames. frames.items ≡ map operation_message (filter (λ ask. nat_lt last ask.0) waiting.now)) }
    ensures announced { IfOk result (λ frames. All IsAnnounceable frames.items) }
{
    let mut frames = Vec::new(alloc);
    for (number, operation) in waiting {
        push_above(alloc, &mut frames, last, *number, operation)?;
    }
    Ok(frames)
}

// The message of an operation, where its number is above this one.
fn push_above(
    alloc: Global,
    frames: &mut Vec<Frame>,
    last: u64,
    number: u64,
    operation: &Operation,
) -> Result<(), AllocError>
    requires { IsWritable operation.now }
    ensures frames { OnOk result (frames.new.items ≡ frames.old.items ++ above last (number, operation.now)) }
    ensures announced { All IsAnnounceable frames.old.items → OnOk result (All IsAnnounceable frames.new.items) }
{
    if number <= last {
        return Ok(());
    }
    let frame = operation_message(alloc, number, operation)?;
    frames.push(frame)?;
    Ok(())
}

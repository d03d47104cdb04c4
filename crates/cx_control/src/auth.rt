//! The frames of authentication. Their payloads hold those of the method, which for cephx `cx_wire` reads.

ghost use Rattle.std.specs.Prelude.{length, ◌<◌, ◌^◌, ◌≤◌};
ghost use Rattle.cx_control.specs.Calls.{IsReadBy, IsPutBy};
ghost use Rattle.cx_control.specs.Auth.{auth_request_layout, auth_reply_more_layout, auth_request_more_layout, auth_done_layout, auth_signature_layout};

use crate::payloads::{put_payload, read_payload};
use crate::refusals::WireRefusal;
use cx_base::{Blob, Items};
use cx_enc::{Cut, Encoded, ReadRefusal, put_blob, put_many, put_u32, put_u64, take_items};
use std::alloc::{AllocError, Global};

/// AUTH_REQUEST: the method (2 is cephx), at most sixteen modes that its sender takes (1 crc, 2 secure), and the first payload
/// of the method.
#[derive(PartialEq, Eq, Drop)]
pub struct AuthRequest {
    pub method: u32,
    pub modes: Items<u32>,
    pub payload: Blob,
}

impl Encoded for AuthRequest {
    ghost layout = { auth_request_layout };

    ghost Bound = { λ a. (length a.modes ≤ 16) × (length a.payload < 2 ^ 32) };

    fn read(alloc: Global, cut: &mut Cut<'_>) -> Result<AuthRequest, ReadRefusal> {
        let method = cut.take_u32()?;
        let count = cut.take_count(0, 16)?;
        Ok(AuthRequest {
            method,
            modes: take_items(alloc, cut, count)?,
            payload: Blob::read(alloc, cut)?,
        })
    }

    fn write(&self, alloc: Global, into: &mut Blob) -> Result<(), AllocError> {
        put_u32(alloc, into, self.method)?;
        put_many(alloc, into, &self.modes)?;
        put_blob(alloc, into, self.payload.bytes())
    }
}

/// Reads the payload of AUTH_REQUEST.
pub fn read_auth_request(alloc: Global, bytes: &[u8]) -> Result<AuthRequest, WireRefusal>
    ensures { IsReadBy auth_request_layout.form bytes.now result }
{
    read_payload(alloc, bytes)
}

/// Writes the payload of AUTH_REQUEST behind some bytes.
pub fn put_auth_request(
    alloc: Global,
    into: &mut Blob,
    value: &AuthRequest,
) -> Result<(), AllocError>
    requires modes { length value.now.modes ≤ 16 }
    requires payload { length value.now.payload < 2 ^ 32 }
    ensures { IsPutBy auth_request_layout.form value.now into.old into.new result }
{
    put_payload(alloc, into, value)
}

/// AUTH_REPLY_MORE: a payload of the method, from the server.
#[derive(PartialEq, Eq, Drop)]
pub struct AuthReplyMore {
    pub payload: Blob,
}

impl Encoded for AuthReplyMore {
    ghost layout = { auth_reply_more_layout };

    ghost Bound = { λ a. length a.payload < 2 ^ 32 };

    fn read(alloc: Global, cut: &mut Cut<'_>) -> Result<AuthReplyMore, ReadRefusal> {
        Ok(AuthReplyMore {
            payload: Blob::read(alloc, cut)?,
        })
    }

    fn write(&self, alloc: Global, into: &mut Blob) -> Result<(), AllocError> {
        put_blob(alloc, into, self.payload.bytes())
    }
}

/// Reads the payload of AUTH_REPLY_MORE.
pub fn read_auth_reply_more(alloc: Global, bytes: &[u8]) -> Result<AuthReplyMore, WireRefusal>
    ensures { IsReadBy auth_reply_more_layout.form bytes.now result }
{
    read_payload(alloc, bytes)
}

/// Writes the payload of AUTH_REPLY_MORE behind some bytes.
pub fn put_auth_reply_more(
    alloc: Global,
    into: &mut Blob,
    value: &AuthReplyMore,
) -> Result<(), AllocError>
    requires { length value.now.payload < 2 ^ 32 }
    ensures { IsPutBy auth_reply_more_layout.form value.now into.old into.new result }
{
    put_payload(alloc, into, value)
}

/// AUTH_REQUEST_MORE: a payload of the method, from the client.
#[derive(PartialEq, Eq, Drop)]
pub struct AuthRequestMore {
    pub payload: Blob,
}

impl Encoded for AuthRequestMore {
    ghost layout = { auth_request_more_layout };

    ghost Bound = { λ a. length a.payload < 2 ^ 32 };

    fn read(alloc: Global, cut: &mut Cut<'_>) -> Result<AuthRequestMore, ReadRefusal> {
        Ok(AuthRequestMore {
            payload: Blob::read(alloc, cut)?,
        })
    }

    fn write(&self, alloc: Global, into: &mut Blob) -> Result<(), AllocError> {
        put_blob(alloc, into, self.payload.bytes())
    }
}

/// Reads the payload of AUTH_REQUEST_MORE.
pub fn read_auth_request_more(alloc: Global, bytes: &[u8]) -> Result<AuthRequestMore, WireRefusal>
    ensures { IsReadBy auth_request_more_layout.form bytes.now result }
{
    read_payload(alloc, bytes)
}

/// Writes the payload of AUTH_REQUEST_MORE behind some bytes.
pub fn put_auth_request_more(
    alloc: Global,
    into: &mut Blob,
    value: &AuthRequestMore,
) -> Result<(), AllocError>
    requires { length value.now.payload < 2 ^ 32 }
    ensures { IsPutBy auth_request_more_layout.form value.now into.old into.new result }
{
    put_payload(alloc, into, value)
}

/// AUTH_DONE: the global id of the client, the mode that was chosen (2 secure), and the last payload of the method.
#[derive(PartialEq, Eq, Drop)]
pub struct AuthDone {
    pub gid: u64,
    pub mode: u32,
    pub payload: Blob,
}

impl Encoded for AuthDone {
    ghost layout = { auth_done_layout };

    ghost Bound = { λ a. length a.payload < 2 ^ 32 };

    fn read(alloc: Global, cut: &mut Cut<'_>) -> Result<AuthDone, ReadRefusal> {
        Ok(AuthDone {
            gid: cut.take_u64()?,
            mode: cut.take_u32()?,
            payload: Blob::read(alloc, cut)?,
        })
    }

    fn write(&self, alloc: Global, into: &mut Blob) -> Result<(), AllocError> {
        put_u64(alloc, into, self.gid)?;
        put_u32(alloc, into, self.mode)?;
        put_blob(alloc, into, self.payload.bytes())
    }
}

/// Reads the payload of AUTH_DONE.
pub fn read_auth_done(alloc: Global, bytes: &[u8]) -> Result<AuthDone, WireRefusal>
    ensures { IsReadBy auth_done_layout.form bytes.now result }
{
    read_payload(alloc, bytes)
}

/// Writes the payload of AUTH_DONE behind some bytes.
pub fn put_auth_done(alloc: Global, into: &mut Blob, value: &AuthDone) -> Result<(), AllocError>
    requires { length value.now.payload < 2 ^ 32 }
    ensures { IsPutBy auth_done_layout.form value.now into.old into.new result }
{
    put_payload(alloc, into, value)
}

/// AUTH_SIGNATURE: HMAC with SHA-256 over what was received on the connection.
#[derive(Clone, Copy, PartialEq, Eq)]
pub struct AuthSignature {
    pub signature: [u8; 32],
}

impl Encoded for AuthSignature {
    ghost layout = { auth_signature_layout };

    fn read(_alloc: Global, cut: &mut Cut<'_>) -> Result<AuthSignature, ReadRefusal> {
        Ok(AuthSignature {
            signature: cut.take_array()?,
        })
    }

    fn write(&self, alloc: Global, into: &mut Blob) -> Result<(), AllocError> {
        into.append(alloc, &self.signature)
    }
}

/// Reads the payload of AUTH_SIGNATURE.
pub fn read_auth_signature(alloc: Global, bytes: &[u8]) -> Result<AuthSignature, WireRefusal>
    ensures { IsReadBy auth_signature_layout.form bytes.now result }
{
    read_payload(alloc, bytes)
}

/// Writes the payload of AUTH_SIGNATURE behind some bytes.
pub fn put_auth_signature(
    alloc: Global,
    into: &mut Blob,
    value: &AuthSignature,
) -> Result<(), AllocError>
    ensures { IsPutBy auth_signature_layout.form value.now into.old into.new result }
{
    put_payload(alloc, into, value)
}

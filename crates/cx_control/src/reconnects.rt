//! The frames by which a session goes on over a new connection, or is reset.

ghost use Rattle.cx_control.specs.Calls.{IsReadBy, IsPutBy};
ghost use Rattle.cx_control.specs.Reconnects.{session_reconnect_layout, session_reset_layout, session_retry_layout, session_retry_global_layout, session_reconnect_ok_layout};

use crate::payloads::{put_payload, read_payload};
use crate::refusals::WireRefusal;
use cx_base::{Addr, Blob};
use cx_enc::{Cut, Encoded, ReadRefusal, put_addr, put_flag, put_u32, put_u64};
use std::alloc::{AllocError, Global};

/// SESSION_RECONNECT: the session by its two cookies, and the numbers of the client.
#[derive(Clone, Copy, PartialEq, Eq)]
pub struct SessionReconnect {
    /// The client's own address.
    pub addr: Addr,
    pub client_cookie: u64,
    pub server_cookie: u64,
    pub global_seq: u64,
    pub connect_seq: u64,
    pub msg_seq: u64,
}

impl Encoded for SessionReconnect {
    ghost layout = { session_reconnect_layout };

    fn read(_alloc: Global, cut: &mut Cut<'_>) -> Result<SessionReconnect, ReadRefusal> {
        cut.take_fixed_u32(1)?;
        Ok(SessionReconnect {
            addr: cut.take_addr()?,
            client_cookie: cut.take_u64()?,
            server_cookie: cut.take_u64()?,
            global_seq: cut.take_u64()?,
            connect_seq: cut.take_u64()?,
            msg_seq: cut.take_u64()?,
        })
    }

    fn write(&self, alloc: Global, into: &mut Blob) -> Result<(), AllocError> {
        put_u32(alloc, into, 1)?;
        put_addr(alloc, into, &self.addr)?;
        put_u64(alloc, into, self.client_cookie)?;
        put_u64(alloc, into, self.server_cookie)?;
        put_u64(alloc, into, self.global_seq)?;
        put_u64(alloc, into, self.connect_seq)?;
        put_u64(alloc, into, self.msg_seq)?;
        Ok(())
    }
}

/// Reads the payload of SESSION_RECONNECT.
pub fn read_session_reconnect(alloc: Global, bytes: &[u8]) -> Result<SessionReconnect, WireRefusal>
    ensures { IsReadBy session_reconnect_layout.form bytes.now result }
{
    read_payload(alloc, bytes)
}

/// Writes the payload of SESSION_RECONNECT behind some bytes.
pub fn put_session_reconnect(
    alloc: Global,
    into: &mut Blob,
    value: &SessionReconnect,
) -> Result<(), AllocError>
    ensures { IsPutBy session_reconnect_layout.form value.now into.old into.new result }
{
    put_payload(alloc, into, value)
}

/// SESSION_RESET: the server knows no such session. Where `full` holds, the client forgets all of it.
#[derive(Clone, Copy, PartialEq, Eq)]
pub struct SessionReset {
    pub full: bool,
}

impl Encoded for SessionReset {
    ghost layout = { session_reset_layout };

    fn read(_alloc: Global, cut: &mut Cut<'_>) -> Result<SessionReset, ReadRefusal> {
        Ok(SessionReset {
            full: cut.take_flag()?,
        })
    }

    fn write(&self, alloc: Global, into: &mut Blob) -> Result<(), AllocError> {
        put_flag(alloc, into, self.full)
    }
}

/// Reads the payload of SESSION_RESET.
pub fn read_session_reset(alloc: Global, bytes: &[u8]) -> Result<SessionReset, WireRefusal>
    ensures { IsReadBy session_reset_layout.form bytes.now result }
{
    read_payload(alloc, bytes)
}

/// Writes the payload of SESSION_RESET behind some bytes.
pub fn put_session_reset(
    alloc: Global,
    into: &mut Blob,
    value: &SessionReset,
) -> Result<(), AllocError>
    ensures { IsPutBy session_reset_layout.form value.now into.old into.new result }
{
    put_payload(alloc, into, value)
}

/// SESSION_RETRY: the `connect_seq` that the server has kept, which the one asked with did not pass.
#[derive(Clone, Copy, PartialEq, Eq)]
pub struct SessionRetry {
    pub connect_seq: u64,
}

impl Encoded for SessionRetry {
    ghost layout = { session_retry_layout };

    fn read(_alloc: Global, cut: &mut Cut<'_>) -> Result<SessionRetry, ReadRefusal> {
        Ok(SessionRetry {
            connect_seq: cut.take_u64()?,
        })
    }

    fn write(&self, alloc: Global, into: &mut Blob) -> Result<(), AllocError> {
        put_u64(alloc, into, self.connect_seq)
    }
}

/// Reads the payload of SESSION_RETRY.
pub fn read_session_retry(alloc: Global, bytes: &[u8]) -> Result<SessionRetry, WireRefusal>
    ensures { IsReadBy session_retry_layout.form bytes.now result }
{
    read_payload(alloc, bytes)
}

/// Writes the payload of SESSION_RETRY behind some bytes.
pub fn put_session_retry(
    alloc: Global,
    into: &mut Blob,
    value: &SessionRetry,
) -> Result<(), AllocError>
    ensures { IsPutBy session_retry_layout.form value.now into.old into.new result }
{
    put_payload(alloc, into, value)
}

/// SESSION_RETRY_GLOBAL: the `global_seq` that the server has kept, which is above the one asked with.
#[derive(Clone, Copy, PartialEq, Eq)]
pub struct SessionRetryGlobal {
    pub global_seq: u64,
}

impl Encoded for SessionRetryGlobal {
    ghost layout = { session_retry_global_layout };

    fn read(_alloc: Global, cut: &mut Cut<'_>) -> Result<SessionRetryGlobal, ReadRefusal> {
        Ok(SessionRetryGlobal {
            global_seq: cut.take_u64()?,
        })
    }

    fn write(&self, alloc: Global, into: &mut Blob) -> Result<(), AllocError> {
        put_u64(alloc, into, self.global_seq)
    }
}

/// Reads the payload of SESSION_RETRY_GLOBAL.
pub fn read_session_retry_global(
    alloc: Global,
    bytes: &[u8],
) -> Result<SessionRetryGlobal, WireRefusal>
    ensures { IsReadBy session_retry_global_layout.form bytes.now result }
{
    read_payload(alloc, bytes)
}

/// Writes the payload of SESSION_RETRY_GLOBAL behind some bytes.
pub fn put_session_retry_global(
    alloc: Global,
    into: &mut Blob,
    value: &SessionRetryGlobal,
) -> Result<(), AllocError>
    ensures { IsPutBy session_retry_global_layout.form value.now into.old into.new result }
{
    put_payload(alloc, into, value)
}

/// SESSION_RECONNECT_OK: the session goes on behind the message of this seq.
#[derive(Clone, Copy, PartialEq, Eq)]
pub struct SessionReconnectOk {
    pub seq: u64,
}

impl Encoded for SessionReconnectOk {
    ghost layout = { session_reconnect_ok_layout };

    fn read(_alloc: Global, cut: &mut Cut<'_>) -> Result<SessionReconnectOk, ReadRefusal> {
        Ok(SessionReconnectOk {
            seq: cut.take_u64()?,
        })
    }

    fn write(&self, alloc: Global, into: &mut Blob) -> Result<(), AllocError> {
        put_u64(alloc, into, self.seq)
    }
}

/// Reads the payload of SESSION_RECONNECT_OK.
pub fn read_session_reconnect_ok(
    alloc: Global,
    bytes: &[u8],
) -> Result<SessionReconnectOk, WireRefusal>
    ensures { IsReadBy session_reconnect_ok_layout.form bytes.now result }
{
    read_payload(alloc, bytes)
}

/// Writes the payload of SESSION_RECONNECT_OK behind some bytes.
pub fn put_session_reconnect_ok(
    alloc: Global,
    into: &mut Blob,
    value: &SessionReconnectOk,
) -> Result<(), AllocError>
    ensures { IsPutBy session_reconnect_ok_layout.form value.now into.old into.new result }
{
    put_payload(alloc, into, value)
}

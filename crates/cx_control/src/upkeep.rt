//! The frames that say how a connection fares.

ghost use Rattle.cx_enc.specs.Moments.{IsReading};
ghost use Rattle.cx_control.specs.Calls.{IsReadBy, IsPutBy};
ghost use Rattle.cx_control.specs.Upkeep.{wait_layout, keepalive2_layout, keepalive2_ack_layout, ack_layout};

use crate::payloads::{put_payload, read_payload};
use crate::refusals::WireRefusal;
use cx_base::{Blob, Reading};
use cx_enc::{Cut, Encoded, ReadRefusal, put_reading, put_u64};
use std::alloc::{AllocError, Global};

/// WAIT: nothing.
#[derive(Clone, Copy, PartialEq, Eq)]
pub struct Wait;

impl Encoded for Wait {
    ghost layout = { wait_layout };

    fn read(_alloc: Global, _cut: &mut Cut<'_>) -> Result<Wait, ReadRefusal> {
        Ok(Wait)
    }

    fn write(&self, _alloc: Global, _into: &mut Blob) -> Result<(), AllocError> {
        Ok(())
    }
}

/// Reads the payload of WAIT.
pub fn read_wait(alloc: Global, bytes: &[u8]) -> Result<Wait, WireRefusal>
    ensures { IsReadBy wait_layout.form bytes.now result }
{
    read_payload(alloc, bytes)
}

/// Writes the payload of WAIT behind some bytes.
pub fn put_wait(alloc: Global, into: &mut Blob, value: &Wait) -> Result<(), AllocError>
    ensures { IsPutBy wait_layout.form value.now into.old into.new result }
{
    put_payload(alloc, into, value)
}

/// KEEPALIVE2: the time at which it was sent.
#[derive(Clone, Copy, PartialEq, Eq)]
pub struct Keepalive2 {
    pub time: Reading,
}

impl Encoded for Keepalive2 {
    ghost layout = { keepalive2_layout };

    ghost Bound = { λ k. IsReading k.time };

    fn read(_alloc: Global, cut: &mut Cut<'_>) -> Result<Keepalive2, ReadRefusal> {
        Ok(Keepalive2 {
            time: cut.take_reading()?,
        })
    }

    fn write(&self, alloc: Global, into: &mut Blob) -> Result<(), AllocError> {
        put_reading(alloc, into, self.time)
    }
}

/// Reads the payload of KEEPALIVE2.
pub fn read_keepalive2(alloc: Global, bytes: &[u8]) -> Result<Keepalive2, WireRefusal>
    ensures { IsReadBy keepalive2_layout.form bytes.now result }
{
    read_payload(alloc, bytes)
}

/// Writes the payload of KEEPALIVE2 behind some bytes.
pub fn put_keepalive2(alloc: Global, into: &mut Blob, value: &Keepalive2) -> Result<(), AllocError>
    requires { IsReading value.now.time }
    ensures { IsPutBy keepalive2_layout.form value.now into.old into.new result }
{
    put_payload(alloc, into, value)
}

/// KEEPALIVE2_ACK: the time of the KEEPALIVE2 that it answers.
#[derive(Clone, Copy, PartialEq, Eq)]
pub struct Keepalive2Ack {
    pub time: Reading,
}

impl Encoded for Keepalive2Ack {
    ghost layout = { keepalive2_ack_layout };

    ghost Bound = { λ k. IsReading k.time };

    fn read(_alloc: Global, cut: &mut Cut<'_>) -> Result<Keepalive2Ack, ReadRefusal> {
        Ok(Keepalive2Ack {
            time: cut.take_reading()?,
        })
    }

    fn write(&self, alloc: Global, into: &mut Blob) -> Result<(), AllocError> {
        put_reading(alloc, into, self.time)
    }
}

/// Reads the payload of KEEPALIVE2_ACK.
pub fn read_keepalive2_ack(alloc: Global, bytes: &[u8]) -> Result<Keepalive2Ack, WireRefusal>
    ensures { IsReadBy keepalive2_ack_layout.form bytes.now result }
{
    read_payload(alloc, bytes)
}

/// Writes the payload of KEEPALIVE2_ACK behind some bytes.
pub fn put_keepalive2_ack(
    alloc: Global,
    into: &mut Blob,
    value: &Keepalive2Ack,
) -> Result<(), AllocError>
    requires { IsReading value.now.time }
    ensures { IsPutBy keepalive2_ack_layout.form value.now into.old into.new result }
{
    put_payload(alloc, into, value)
}

/// ACK: the seq of the last message that was taken.
#[derive(Clone, Copy, PartialEq, Eq)]
pub struct Ack {
    pub seq: u64,
}

impl Encoded for Ack {
    ghost layout = { ack_layout };

    fn read(_alloc: Global, cut: &mut Cut<'_>) -> Result<Ack, ReadRefusal> {
        Ok(Ack {
            seq: cut.take_u64()?,
        })
    }

    fn write(&self, alloc: Global, into: &mut Blob) -> Result<(), AllocError> {
        put_u64(alloc, into, self.seq)
    }
}

/// Reads the payload of ACK.
pub fn read_ack(alloc: Global, bytes: &[u8]) -> Result<Ack, WireRefusal>
    ensures { IsReadBy ack_layout.form bytes.now result }
{
    read_payload(alloc, bytes)
}

/// Writes the payload of ACK behind some bytes.
pub fn put_ack(alloc: Global, into: &mut Blob, value: &Ack) -> Result<(), AllocError>
    ensures { IsPutBy ack_layout.form value.now into.old into.new result }
{
    put_payload(alloc, into, value)
}

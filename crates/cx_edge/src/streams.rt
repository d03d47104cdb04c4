//! A reader and a writer as the source and the sink of the top call. They tell what the reader and the writer tell, and count
//! their faults.

ghost use Rattle.std.specs.Prelude.{◌≡◌, ◌≤◌, length, IfOk, OnOk, OnErr};
ghost use Rattle.std.specs.Io.KnownBytes.{Keeps, WriteAppends};
ghost use Rattle.cx_base.specs.Streams.{Gives, Takes, TakesFront};

use cx_base::{Failed, Sink, Source};
use std::io::{ErrorKind, Read, Write};

/// A source over a reader.
#[derive(Drop)]
pub struct Input<R> {
    reader: R,
    faults: u64,
}

impl<R> Input<R> {
    /// The source of what this reader reads.
    pub fn new(reader: R) -> Input<R>
        ensures { result ≡ record { reader = reader; faults = 0 } }
    {
        Input { reader, faults: 0 }
    }
}

impl<R: Read> Source for Input<R> {
    ghost left = { λ s. R.remaining s.reader };

    ghost faults = { λ s. s.faults };

    fn pull(&mut self, into: &mut [u8]) -> Result<usize, Failed> {
        let answer = read_some(&mut self.reader, into);
        if answer.is_err() {
            self.faults = self.faults.saturating_add(1);
        }
        answer
    }
}

// Reads once; a read that a signal interrupts is made again.
fn read_some<R: Read>(reader: &mut R, into: &mut [u8]) -> Result<usize, Failed>
    ensures bound { IfOk result (λ count. count ≤ length into.old) }
    ensures gives { IfOk result (Gives (R.remaining reader.old) (R.remaining reader.new) into.new) }
{
    'tries: for _ in 0..u64::MAX {
        match reader.read(into) {
            Ok(count) => return Ok(count),
            Err(error) => {
                if error.kind() != ErrorKind::Interrupted {
                    return Err(Failed);
                }
            }
        }
    }
    Err(Failed)
}

/// A sink over a writer.
#[derive(Drop)]
pub struct Output<W> {
    writer: W,
    faults: u64,
}

impl<W> Output<W> {
    /// The sink that writes to this writer.
    pub fn new(writer: W) -> Output<W>
        ensures { result ≡ record { writer = writer; faults = 0 } }
    {
        Output { writer, faults: 0 }
    }
}

impl<W: Write> Sink for Output<W> {
    ghost taken = { λ s. W.contents s.writer };

    ghost faults = { λ s. s.faults };

    fn push(&mut self, bytes: &[u8]) -> Result<(), Failed> {
        let answer = write_whole(&mut self.writer, bytes);
        if answer.is_err() {
            self.faults = self.faults.saturating_add(1);
        }
        answer
    }
}

// Writes all of these bytes and flushes, or fails after a front of them.
fn write_whole<W: Write>(writer: &mut W, bytes: &[u8]) -> Result<(), Failed>
    ensures takes { OnOk result (Takes (W.contents writer.old) (W.contents writer.new) bytes.now) }
    ensures front { OnErr result (TakesFront (W.contents writer.old) (W.contents writer.new) bytes.now) }
{
    let mut rest = bytes;
    'parts: while !rest.is_empty() {
        let count = write_some(writer, rest)?;
        if count == 0 {
            return Err(Failed);
        }
        rest = &rest[count..];
    }
    flushed(writer)
}

// Writes once; a write that a signal interrupts is made again.
fn write_some<W: Write>(writer: &mut W, bytes: &[u8]) -> Result<usize, Failed>
    ensures bound { IfOk result (λ count. count ≤ length bytes.now) }
    ensures wrote { WriteAppends (W.contents writer.old) (W.contents writer.new) result bytes.now }
{
    'tries: for _ in 0..u64::MAX {
        match writer.write(bytes) {
            Ok(count) => return Ok(count),
            Err(error) => {
                if error.kind() != ErrorKind::Interrupted {
                    return Err(Failed);
                }
            }
        }
    }
    Err(Failed)
}

fn flushed<W: Write>(writer: &mut W) -> Result<(), Failed>
    ensures { Keeps (W.contents writer.old) (W.contents writer.new) }
{
    match writer.flush() {
        Ok(()) => Ok(()),
        Err(_) => Err(Failed),
    }
}

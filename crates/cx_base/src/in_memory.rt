//! A source and a sink in memory, which tell all that they give and take, and fail where they are told to.

ghost use Rattle.std.specs.Prelude.{◌≡◌, ◌≤◌, ◌-◌, [], ◌++◌, length, take, drop, min, IfOk, OnOk, OnErr, is_ok, if◌then◌else◌, Some};
ghost use Rattle.cx_base.specs.Streams.{Gives, Takes, TakesFront, HasCause, is_listed, gives_next, pulled, after_pull, takes_all, after_push};

use crate::outside::{Failed, Sink, Source};
use crate::owned::Blob;
use std::alloc::{AllocError, Global};
use std::marker::Model;

/// A source of these bytes. Its call number i, from 1, fails where `fails` holds the byte i, and gives nothing then.
#[derive(Drop)]
pub struct ByteSource {
    bytes: Blob,
    place: usize,
    fails: Blob,
    calls: u64,
    faults: u64,
}

impl Model for ByteSource {
    ghost use Rattle.std.specs.Prelude.{drop, length, ◌≤◌};
    ghost use Rattle.cx_base.specs.Streams.{Giving};

    ghost Value = { Giving };

    ghost view = { λ s. record { left = drop s.place s.bytes; fails = s.fails; calls = s.calls; faults = s.faults } };

    ghost invariant = { λ s. s.place ≤ length s.bytes };
}

impl ByteSource {
    /// A source of these bytes.
    pub fn new(bytes: Blob, fails: Blob) -> ByteSource
        ensures { result ≡ record { left = bytes; fails = fails; calls = 0; faults = 0 } }
    {
        ByteSource {
            bytes,
            place: 0,
            fails,
            calls: 0,
            faults: 0,
        }
    }
}

impl Source for ByteSource {
    ghost use Rattle.std.specs.Prelude.{Some};

    ghost left = { λ s. Some s.left };

    ghost faults = { λ s. s.faults };

    /// Fails exactly where the number of this call is listed.
    fn pull(&mut self, into: &mut [u8]) -> Result<usize, Failed>
        ensures bound { IfOk result (λ n. n ≤ length into.old) }
        ensures gives { IfOk result (Gives (Some self.old.left) (Some self.new.left) into.new) }
        ensures cause { HasCause self.old.faults self.new.faults result }
        ensures answer { is_ok result ≡ gives_next self.old }
        ensures given { IfOk result (λ n. n ≡ pulled self.old (length into.old)) }
        ensures state { self.new ≡ after_pull self.old (length into.old) }
    {
        self.calls = self.calls.saturating_add(1);
        if is_listed(self.fails.bytes(), self.calls) {
            self.faults = self.faults.saturating_add(1);
            return Err(Failed);
        }
        let count = give(self.bytes.bytes(), self.place, into);
        self.place += count;
        Ok(count)
    }
}

// Copies as many of the bytes from this place on as fit.
fn give(bytes: &[u8], place: usize, into: &mut [u8]) -> usize
    requires { place ≤ length bytes.now }
    ensures count { result ≡ min (length (drop place bytes.now)) (length into.old) }
    ensures given { take result into.new ≡ take result (drop place bytes.now) }
{
    let rest = &bytes[place..];
    let count = rest.len().min(into.len());
    into[..count].copy_from_slice(&rest[..count]);
    count
}

fn is_listed(fails: &[u8], call: u64) -> bool
    ensures { result ≡ is_listed fails.now call }
{
    fails.iter().any(|b| u64::from(*b) == call)
}

/// A sink with room for so many bytes, taken when it is made. Its call number i, from 1, fails and takes nothing where
/// `fails` holds the byte i; a call whose bytes don't fit takes those that fit and fails.
#[derive(Drop)]
pub struct VecSink {
    taken: Vec<u8>,
    room: usize,
    fails: Blob,
    calls: u64,
    faults: u64,
}

impl Model for VecSink {
    ghost use Rattle.std.specs.Prelude.{vec_len, vec_capacity, ◌+◌, ◌≤◌};
    ghost use Rattle.cx_base.specs.Streams.{Taking};

    ghost Value = { Taking };

    ghost view = { λ s. record { taken = s.taken.items; room = s.room; fails = s.fails; calls = s.calls; faults = s.faults } };

    ghost invariant = { λ s. vec_len s.taken + s.room ≤ vec_capacity s.taken };
}

impl VecSink {
    /// An empty sink.
    pub fn new(alloc: Global, room: usize, fails: Blob) -> Result<VecSink, AllocError>
        ensures { IfOk result (λ s. s ≡ record { taken = []; room = room; fails = fails; calls = 0; faults = 0 }) }
    {
        let taken = Vec::with_capacity(alloc, room)?;
        Ok(VecSink {
            taken,
            room,
            fails,
            calls: 0,
            faults: 0,
        })
    }

    /// The bytes taken so far.
    pub fn taken(&self) -> &[u8]
        ensures { result.now ≡ self.now.taken }
    {
        self.taken.as_slice()
    }

    // Takes these bytes, which fit.
    fn keep(&mut self, bytes: &[u8])
        requires { length bytes.now ≤ self.old.room }
        ensures { self.new ≡ record self.old { taken = self.old.taken ++ bytes.now; room = self.old.room - length bytes.now } }
    {
        self.taken.extend_from_slice(bytes).unwrap();
        self.room -= bytes.len();
    }
}

impl Sink for VecSink {
    ghost use Rattle.std.specs.Prelude.{Some};

    ghost taken = { λ s. Some s.taken };

    ghost faults = { λ s. s.faults };

    /// Fails exactly where the number of this call is listed or the bytes don't fit.
    fn push(&mut self, bytes: &[u8]) -> Result<(), Failed>
        ensures takes { OnOk result (Takes (Some self.old.taken) (Some self.new.taken) bytes.now) }
        ensures front { OnErr result (TakesFront (Some self.old.taken) (Some self.new.taken) bytes.now) }
        ensures cause { HasCause self.old.faults self.new.faults result }
        ensures state { self.new ≡ after_push self.old bytes.now }
        ensures answer { is_ok result ≡ takes_all self.old bytes.now }
    {
        self.calls = self.calls.saturating_add(1);
        if is_listed(self.fails.bytes(), self.calls) {
            self.faults = self.faults.saturating_add(1);
            return Err(Failed);
        }
        if bytes.len() > self.room {
            let room = self.room;
            self.keep(&bytes[..room]);
            self.faults = self.faults.saturating_add(1);
            return Err(Failed);
        }
        self.keep(bytes);
        Ok(())
    }
}

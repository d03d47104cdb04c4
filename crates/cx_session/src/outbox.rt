//! The operations that a client has sent and that no acknowledgement has covered.

ghost use Rattle.std.specs.Prelude.{◌≡◌, ◌<◌, ◌≤◌, ◌-◌, ◌⊎◌, IsOk, IfOk, OnOk, OnErr, IfErr, Ok, Err, filter, nat_lt, vec_len, vec_capacity};
ghost use Rattle.cx_session.specs.Queue.{Queue, empty_queue, IsRun, push_reply, pushed, acknowledged};

use cx_base::Operation;
use std::alloc::{AllocError, Global};
use std::marker::Model;
use thiserror::Error;

/// How many operations may wait in an outbox.
const LIMIT: usize = 1024;

/// Why an operation was not taken into an outbox.
#[derive(Clone, Copy, Debug, PartialEq, Eq, Error)]
pub enum QueueFault {
    /// As many operations wait as an outbox has places.
    #[error("{limit} operations wait for their acknowledgement")]
    QueueFull { limit: u32 },
    /// The last sequence number was given.
    #[error("no sequence number is left")]
    Spent,
    /// Memory was wanting.
    #[error("out of memory")]
    OutOfMemory,
}

/// An operation that was not taken, and why.
#[derive(Debug, PartialEq, Eq, Drop)]
pub struct QueueRefusal {
    pub ask: Operation,
    pub fault: QueueFault,
}

/// The operations sent in a session and not acknowledged yet, each with its sequence number. Numbers begin with 1 and rise
/// by one.
#[derive(Debug, Drop)]
pub struct Outbox {
    pub(crate) last: u64,
    pub(crate) waiting: Vec<(u64, Operation)>,
}

impl Model for Outbox {
    ghost use Rattle.std.specs.Prelude.{◌-◌, vec_len, vec_capacity};
    ghost use Rattle.cx_session.specs.Queue.{KeptQueue, IsRun};

    ghost Value = { KeptQueue };

    ghost view = { λ b. record { queue = record { last = b.last; waiting = b.waiting.items }; room = vec_capacity b.waiting - vec_len b.waiting } };

    ghost invariant = { λ b. IsRun b.last b.waiting.items };
}

impl Outbox {
    /// Nothing was sent yet.
    pub fn new(alloc: Global) -> Outbox
        ensures { result.queue ≡ empty_queue }
    {
        Outbox {
            last: 0,
            waiting: Vec::new(alloc),
        }
    }

    /// What a push would answer.
    pub fn push_reply(&self) -> Result<u64, QueueFault>
        ensures { result ≡ push_reply self.now.queue }
    {
        if self.waiting.len() >= LIMIT {
            return Err(QueueFault::QueueFull { limit: 1024 });
        }
        if self.last == u64::MAX {
            return Err(QueueFault::Spent);
        }
        Ok(self.last + 1)
    }

    /// Takes all the memory that a push takes. What was pushed stays as it is.
    pub fn reserve(&mut self, _alloc: Global) -> Result<(), AllocError>
        ensures ok { OnOk result (0 < self.new.room) }
        ensures seen { self.new.queue ≡ self.old.queue }
        ensures err { OnErr result (self.new ≡ self.old) }
        ensures ready { 0 < self.old.room → IsOk result }
    {
        self.waiting.reserve(1)
    }

    /// Pushes an operation that would not be refused, into memory that stands ready, and answers its number.
    pub fn push_reserved(&mut self, ask: Operation) -> u64
        requires reply { IsOk (push_reply self.old.queue) }
        requires room { 0 < self.old.room }
        ensures number { push_reply self.old.queue ≡ Ok result }
        ensures pushed { self.new ≡ record { queue = pushed self.old.queue ask; room = self.old.room - 1 } }
    {
        let number = self.last + 1;
        self.waiting.push_reserved((number, ask));
        self.last = number;
        number
    }

    /// Puts the operation last, and answers its number, which is one above the last given.
    pub fn push(&mut self, alloc: Global, ask: Operation) -> Result<u64, QueueRefusal>
        ensures ok { IfOk result (λ number. push_reply self.old.queue ≡ Ok number) }
        ensures pushed { OnOk result (self.new.queue ≡ pushed self.old.queue ask) }
        ensures cause { IfErr result (λ refusal. (refusal.fault ≡ QueueFault.OutOfMemory) ⊎ (push_reply self.old.queue ≡ Err refusal.fault)) }
        ensures wants { IfErr result (λ refusal. refusal.fault ≡ QueueFault.OutOfMemory → IsOk (push_reply self.old.queue) × (self.old.room ≡ 0)) }
        ensures kept { IfErr result (λ refusal. refusal.ask ≡ ask) }
        ensures err { OnErr result (self.new ≡ self.old) }
    {
        if let Err(fault) = self.push_reply() {
            return Err(QueueRefusal { ask, fault });
        }
        if self.reserve(alloc).is_err() {
            return Err(QueueRefusal {
                ask,
                fault: QueueFault::OutOfMemory,
            });
        }
        Ok(self.push_reserved(ask))
    }

    /// Gives up the operations with this number or a lower one.
    pub fn acknowledge(&mut self, seq: u64)
        ensures acknowledged { self.new.queue ≡ acknowledged self.old.queue seq }
        ensures room { self.old.room ≤ self.new.room }
    {
        drop_up_to(&mut self.waiting, seq);
    }

    /// The operations that wait, in the order of their numbers.
    pub fn waiting(&self) -> &[(u64, Operation)]
        ensures all { result.now ≡ self.now.queue.waiting }
        ensures run { IsRun self.now.queue.last self.now.queue.waiting }
    {
        &self.waiting
    }
}

// Drops the operations with this number or a lower one.
fn drop_up_to(waiting: &mut Vec<(u64, Operation)>, seq: u64)
    ensures left { waiting.new.items ≡ filter (λ ask. nat_lt seq ask.0) waiting.old.items }
    ensures room { vec_capacity waiting.old - vec_len waiting.old ≤ vec_capacity waiting.new - vec_len waiting.new }
{
    waiting.retain(|ask| seq < ask.0);
}

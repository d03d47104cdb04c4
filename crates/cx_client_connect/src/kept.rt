//! One session of a client.

ghost use Rattle.std.specs.Prelude.{◌≡◌};

use crate::callee::Callee;
use cx_base::{Duplicate, EntityName, Operation};
use cx_session::{Outbox, QueueRefusal};
use std::alloc::{AllocError, Global};
use std::marker::Model;

/// A session of a client with a daemon: both cookies, whether it ends with its link, how often it was taken up again, and the operations that
/// were sent in it and that no acknowledgement has covered. Each of these can be written (`IsWritable` of `cx_wire`).
#[derive(Drop)]
pub struct HeldSession {
    pub(crate) daemon: EntityName,
    pub(crate) client_cookie: u64,
    pub(crate) server_cookie: u64,
    pub(crate) lossy: bool,
    pub(crate) connect_seq: u64,
    pub(crate) queue: Outbox,
}

impl Model for HeldSession {
    ghost use Rattle.std.specs.Prelude.{All};
    ghost use Rattle.cx_rules_session.specs.Sessions as rules;
    ghost use Rattle.cx_wire.specs.Operations.{IsWritable};

    ghost Value = { rules.HeldSession };

    ghost view = { λ s. record {
      daemon = s.daemon;
      client_cookie = s.client_cookie;
      server_cookie = s.server_cookie;
      lossy = s.lossy;
      connect_seq = s.connect_seq;
      queue = s.queue.queue;
    } };

    ghost invariant = { λ s. All (λ ask. IsWritable ask.1) s.queue.queue.waiting };
}

impl HeldSession {
    ghost use Rattle.std.specs.Prelude.{All, IfOk, IfErr, OnOk, OnErr, Ok, Err, ◌⊎◌};
    ghost use Rattle.cx_rules_session.specs.Sessions.{acknowledged_up_to, new_session};
    ghost use Rattle.cx_session.specs.Queue.{push_reply, pushed};
    ghost use Rattle.cx_session.specs.declared.outbox.QueueFault.TheVariants as fault;
    ghost use Rattle.cx_client_connect.specs.session.Table.{taken_up};
    ghost use Rattle.cx_wire.specs.Operations.{IsWritable};

    /// A session that a daemon has just opened, under the client's cookie and the daemon's.
    pub fn new(
        alloc: Global,
        callee: &Callee,
        client_cookie: u64,
        server_cookie: u64,
    ) -> Result<HeldSession, AllocError>
        ensures { IfOk result (λ session. session ≡ new_session callee.now client_cookie server_cookie) }
    {
        Ok(HeldSession {
            daemon: callee.daemon.copy(alloc)?,
            client_cookie,
            server_cookie,
            lossy: callee.lossy,
            connect_seq: 0,
            queue: Outbox::new(alloc),
        })
    }

    /// The daemon.
    pub fn daemon(&self) -> &EntityName
        ensures { result.now ≡ self.now.daemon }
    {
        &self.daemon
    }

    /// The client's cookie, which names the session.
    pub fn client_cookie(&self) -> u64
        ensures { result ≡ self.now.client_cookie }
    {
        self.client_cookie
    }

    /// The daemon's cookie.
    pub fn server_cookie(&self) -> u64
        ensures { result ≡ self.now.server_cookie }
    {
        self.server_cookie
    }

    /// How often the session was taken up again.
    pub fn connect_seq(&self) -> u64
        ensures { result ≡ self.now.connect_seq }
    {
        self.connect_seq
    }

    /// The number that the next operation would have, or why none would be taken.
    pub fn push_reply(&self) -> Result<u64, cx_session::QueueFault>
        ensures { result ≡ push_reply self.now.queue }
    {
        self.queue.push_reply()
    }

    /// The operations that wait for their acknowledgement, each with its number, in order.
    pub fn waiting(&self) -> &[(u64, Operation)]
        ensures all { result.now ≡ self.now.queue.waiting }
        ensures writable { All (λ ask. IsWritable ask.1) result.now }
    {
        self.queue.waiting()
    }

    // An operation waits from now on.
    pub(crate) fn push(&mut self, alloc: Global, operation: Operation) -> Result<u64, QueueRefusal>
        requires { IsWritable operation }
        ensures ok { IfOk result (λ number. push_reply self.old.queue ≡ Ok number) }
        ensures pushed { OnOk result (self.new ≡ record self.old { queue = pushed self.old.queue operation }) }
        ensures cause { IfErr result (λ refusal. (refusal.fault ≡ fault.OutOfMemory) ⊎ (push_reply self.old.queue ≡ Err refusal.fault)) }
        ensures err { OnErr result (self.new ≡ self.old) }
    {
        self.queue.push(alloc, operation)
    }

    // It was taken up again so often.
    pub(crate) fn take_up(&mut self, count: u64)
        ensures { self.new ≡ taken_up count self.old }
    {
        self.connect_seq = count;
    }

    // What was acknowledged doesn't wait any more.
    pub(crate) fn acknowledge(&mut self, seq: u64)
        ensures { self.new ≡ acknowledged_up_to seq self.old }
    {
        self.queue.acknowledge(seq);
    }
}

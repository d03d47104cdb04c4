//! The sessions that a client holds.

ghost use Rattle.std.specs.Prelude.{◌≡◌, ◌<◌, [], OnOk, OnErr, vec_len, vec_capacity};
ghost use Rattle.std.specs.List.{position};
ghost use Rattle.cx_rules_session.specs.Sessions.{acknowledged_up_to, put_session};
ghost use Rattle.cx_client_connect.specs.session.Table.{changed, having_pushed, in_session, is_with, taken_up};
ghost use Rattle.cx_wire.specs.Operations.{IsWritable};

use crate::kept::HeldSession;
use cx_base::{EntityName, Operation};
use cx_session::QueueFault;
use std::alloc::{AllocError, Global};
use std::marker::Model;

/// What becomes of the session with a daemon.
#[derive(Drop)]
pub enum SessionChange {
    /// It is forgotten, with what waits in it.
    Forgets,
    /// Another one stands in its place.
    Opens(HeldSession),
    /// It is taken up again, and was so often so far.
    TakesUp(u64),
    /// Operations up to this number don't wait any more.
    Acknowledges(u64),
}

/// The sessions of a client, at most one with each daemon.
#[derive(Drop)]
pub struct Sessions {
    held: Vec<HeldSession>,
}

impl Model for Sessions {
    ghost use Rattle.std.specs.Prelude.{◌-◌, vec_len, vec_capacity};
    ghost use Rattle.cx_client_connect.specs.session.Table.{KeptSessions};

    ghost Value = { KeptSessions };

    ghost view = { λ s. record { sessions = s.held.items; room = vec_capacity s.held - vec_len s.held } };
}

impl Sessions {
    ghost use Rattle.std.specs.Option.{option_copied};
    ghost use Rattle.cx_rules_session.specs.Sessions.{session_with, with_session, without_session};
    ghost use Rattle.cx_client_connect.specs.session.Table.{IsReady, without_lossy};

    /// None yet.
    pub fn new(alloc: Global) -> Sessions
        ensures { result.sessions ≡ [] }
    {
        Sessions {
            held: Vec::new(alloc),
        }
    }

    /// The session with this daemon.
    pub fn with(&self, daemon: &EntityName) -> Option<&HeldSession>
        ensures { option_copied result ≡ session_with daemon.now self.now.sessions }
    {
        self.held.iter().find(|session| session.daemon == *daemon)
    }

    /// Takes the memory that any change takes. The sessions stay as they are.
    pub fn reserve(&mut self, _alloc: Global) -> Result<(), AllocError>
        ensures ok { OnOk result (0 < self.new.room) }
        ensures seen { self.new.sessions ≡ self.old.sessions }
    {
        self.held.reserve(1)
    }

    /// Changes the session with this daemon. It wants no memory: a session that is opened takes what stands ready for it.
    pub fn change(&mut self, daemon: &EntityName, change: SessionChange)
        requires { IsReady self.old change }
        ensures { self.new.sessions ≡ with_session daemon.now (changed change (session_with daemon.now self.old.sessions)) self.old.sessions }
    {
        match change {
            SessionChange::Forgets => self.forget(daemon),
            SessionChange::Opens(session) => put(&mut self.held, session),
            SessionChange::TakesUp(count) => take_up(&mut self.held, daemon, count),
            SessionChange::Acknowledges(seq) => acknowledge(&mut self.held, daemon, seq),
        }
    }

    /// An operation waits in the session with this daemon from now on, if there is one that would take it. Where memory is wanting, all is as before.
    pub fn push(
        &mut self,
        alloc: Global,
        daemon: &EntityName,
        operation: Operation,
    ) -> Result<(), AllocError>
        requires { IsWritable operation }
        ensures ok { OnOk result (self.new.sessions ≡ in_session daemon.now (having_pushed operation) self.old.sessions) }
        ensures err { OnErr result (self.new.sessions ≡ self.old.sessions) }
    {
        push(alloc, &mut self.held, daemon, operation)
    }

    /// Forgets the session with this daemon.
    pub fn forget(&mut self, daemon: &EntityName)
        ensures { self.new.sessions ≡ without_session daemon.now self.old.sessions }
    {
        self.held.retain(|session| session.daemon != *daemon);
    }

    /// Forgets the session with this daemon where it ends with its link.
    pub fn forget_lossy(&mut self, daemon: &EntityName)
        ensures { self.new.sessions ≡ without_lossy daemon.now self.old.sessions }
    {
        self.held
            .retain(|session| !(session.lossy && session.daemon == *daemon));
    }

    /// Forgets all of them.
    pub fn clear(&mut self)
        ensures { self.new.sessions ≡ [] }
    {
        self.held.clear();
    }
}

fn place_of(sessions: &[HeldSession], daemon: &EntityName) -> Option<usize>
    ensures { result ≡ position (is_with daemon.now) sessions.now }
{
    sessions
        .iter()
        .position(|session| session.daemon == *daemon)
}

// A session in place of the older one with its daemon, or behind the others.
fn put(sessions: &mut Vec<HeldSession>, session: HeldSession)
    requires { vec_len sessions.old < vec_capacity sessions.old }
    ensures { sessions.new.items ≡ put_session session sessions.old.items }
{
    match place_of(sessions, &session.daemon) {
        Some(place) => sessions[place] = session,
        None => sessions.push_reserved(session),
    }
}

// The session with this daemon was taken up so often.
fn take_up(sessions: &mut [HeldSession], daemon: &EntityName, count: u64)
    ensures { sessions.new ≡ in_session daemon.now (taken_up count) sessions.old }
{
    if let Some(place) = place_of(sessions, daemon) {
        let session = &mut sessions[place];
        session.take_up(count);
    }
}

// What was acknowledged in the session with this daemon doesn't wait any more.
fn acknowledge(sessions: &mut [HeldSession], daemon: &EntityName, seq: u64)
    ensures { sessions.new ≡ in_session daemon.now (acknowledged_up_to seq) sessions.old }
{
    if let Some(place) = place_of(sessions, daemon) {
        let session = &mut sessions[place];
        session.acknowledge(seq);
    }
}

// An operation waits in the session with this daemon, where one more may.
fn push(
    alloc: Global,
    sessions: &mut [HeldSession],
    daemon: &EntityName,
    operation: Operation,
) -> Result<(), AllocError>
    requires { IsWritable operation }
    ensures ok { OnOk result (sessions.new ≡ in_session daemon.now (having_pushed operation) sessions.old) }
    ensures err { OnErr result (sessions.new ≡ sessions.old) }
{
    match place_of(sessions, daemon) {
        Some(place) => {
            let session = &mut sessions[place];
            push_into(alloc, session, operation)
        }
        None => Ok(()),
    }
}

fn push_into(
    alloc: Global,
    session: &mut HeldSession,
    operation: Operation,
) -> Result<(), AllocError>
    requires { IsWritable operation }
    ensures ok { OnOk result (session.new ≡ having_pushed operation session.old) }
    ensures err { OnErr result (session.new ≡ session.old) }
{
    match session.push(alloc, operation) {
        Ok(_) => Ok(()),
        Err(refusal) => match refusal.fault {
            QueueFault::OutOfMemory => Err(AllocError),
            QueueFault::QueueFull { .. } => Ok(()),
            QueueFault::Spent => Ok(()),
        },
    }
}

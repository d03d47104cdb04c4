//! What the monitor has of its own.

use crate::links::Link;
use crate::turns::turned;
use cx_base::{Addr, EntityName, NodeName};
use cx_enc::Key;
use cx_keyserver::KeyServer;
use cx_node::{Came, Moment, Turner};
use cx_rotate::{BoxedState, KeptState};
use std::alloc::{AllocError, Global};
use std::marker::Model;

/// Its key server; the state that was saved last, or that it began with; the one that was saved last before the last step; its address.
#[derive(Drop)]
pub struct Own {
    pub(crate) server: KeyServer,
    pub(crate) saved: KeptState,
    pub(crate) saved_before: KeptState,
    pub(crate) address: Addr,
}

impl Model for Own {
    ghost use Rattle.cx_rotate.specs.Keeping.{IsKeptState};
    ghost use Rattle.cx_rules.specs.Monitor.{Monitor};

    ghost Value = { Monitor };

    ghost view = { λ o. record { server = o.server; saved = o.saved; saved_before = o.saved_before; address = o.address } };

    ghost invariant = { λ o. IsKeptState o.saved × IsKeptState o.saved_before };
}

/// What a login may change: the state of the key server, and the state that was saved last.
#[derive(Clone, Copy)]
pub struct Mark {
    pub state: KeptState,
    pub saved: KeptState,
}

/// What a turn changes of the monitor's own: what a login does. Both states may be kept. It is boxed: a change goes by value from call to
/// call, mostly where there is none, and has the secrets of four services twice.
#[derive(Drop)]
pub struct KeyChange {
    mark: Box<Mark>,
}

impl Model for KeyChange {
    ghost use Rattle.cx_mon.specs.declared.own.Mark.{Mark};
    ghost use Rattle.cx_rotate.specs.Keeping.{IsKeptState};

    ghost Value = { Mark };

    ghost view = { λ c. c.mark.value };

    ghost invariant = { λ c. IsKeptState c.mark.value.state × IsKeptState c.mark.value.saved };
}

impl KeyChange {
    ghost use Rattle.std.specs.Prelude.{◌≡◌, IfOk};
    ghost use Rattle.cx_rotate.specs.Keeping.{IsKeptState};

    // The change to this mark. Where memory is wanting it is given up.
    pub(crate) fn of(alloc: Global, mark: &Mark) -> Result<KeyChange, AllocError>
        requires { IsKeptState mark.now.state × IsKeptState mark.now.saved }
        ensures { IfOk result (λ change. change ≡ mark.now) }
    {
        let mark = Box::new(alloc, *mark)?;
        Ok(KeyChange { mark })
    }
}

impl Own {
    ghost use Rattle.std.specs.Prelude.{◌≡◌, ◌⊎◌, None, Some, find};
    ghost use Rattle.std.specs.Option.{option_map};
    ghost use Rattle.cx_keyserver.specs.cx_keyring.specs.Entries.{is_named};
    ghost use Rattle.cx_keyserver.specs.Servers.{Server};
    ghost use Rattle.cx_rotate.specs.Keeping.{IsKeptState};
    ghost use Rattle.cx_rules.specs.KeptStates.{saved_behind};
    ghost use Rattle.cx_mon.specs.acceptor.Rows.{with_keys};

    /// As the monitor begins.
    pub fn new(server: KeyServer, address: Addr) -> Own
        ensures { result ≡ record { server = server; saved = server.state; saved_before = server.state; address = address } }
    {
        let saved = server.state();
        let saved_before = server.state();
        Own {
            server,
            saved,
            saved_before,
            address,
        }
    }

    /// The key of an entity of the keyring.
    pub fn key_of(&self, name: &EntityName) -> Option<Key>
        ensures { result ≡ option_map (λ entry. entry.key) (find (is_named name.now) self.now.server.ring) }
    {
        self.server.key_of(name)
    }

    pub fn address(&self) -> Addr
        ensures { result ≡ self.now.address }
    {
        self.address
    }

    /// What was saved last is a state that may be kept.
    pub fn is_kept(&self)
        ensures { IsKeptState self.now.saved }
    {
        let _ = &self.saved;
    }

    /// What was saved last is noted, before a step.
    pub fn note(&mut self)
        ensures { self.new ≡ record self.old { saved_before = self.old.saved } }
    {
        self.saved_before = self.saved;
    }

    /// A step saves the state of the key server, or nothing.
    pub fn note_saved(&mut self, save: &Option<BoxedState>)
        requires { (save.now ≡ None) ⊎ (save.now ≡ Some self.old.server.state) }
        ensures { self.new ≡ record self.old { saved = saved_behind self.old.saved save.now } }
    {
        match save {
            None => (),
            Some(_) => self.saved = self.server.state(),
        }
    }

    /// What was saved by the last step is taken back.
    pub fn unsave(&mut self)
        ensures { self.new ≡ record self.old { saved = self.old.saved_before } }
    {
        self.saved = self.saved_before;
    }

    /// What a login may change.
    pub fn mark(&self) -> Mark
        ensures state { result.state ≡ self.now.server.state }
        ensures saved { result.saved ≡ self.now.saved }
        ensures kept { IsKeptState result.state × IsKeptState result.saved }
    {
        Mark {
            state: self.server.state(),
            saved: self.saved,
        }
    }

    /// Takes back what a login changed.
    pub fn go_back(&mut self, mark: &Mark)
        requires { IsKeptState mark.now.state × IsKeptState mark.now.saved }
        ensures { self.new ≡ with_keys self.old mark.now }
    {
        self.server.restore(mark.state);
        self.saved = mark.saved;
    }

    /// The key server goes on from what was saved last.
    pub fn restore(&mut self)
        ensures { self.new ≡ record self.old { server = record self.old.server { state = self.old.saved } } }
    {
        self.server.restore(self.saved);
    }
}

impl Turner<Link> for Own {
    ghost use Rattle.std.specs.Prelude.{◌<◌};
    ghost use Rattle.cx_base.specs.declared.nodes.NodeName.TheVariants as node;
    ghost use Rattle.cx_mon.specs.acceptor.Rows as rows;

    type Change = KeyChange;

    ghost name_of = { λ _. node.Monitor };

    ghost IsTime = { λ reading. reading < 4000000000000000000 };

    ghost changed = { rows.with_keys };

    ghost IsCome = { rows.IsMonitorTurn };

    fn name(&self, _alloc: Global) -> Result<NodeName, AllocError> {
        Ok(NodeName::Monitor)
    }

    fn turned(
        &mut self,
        alloc: Global,
        at: &Moment<'_>,
        link: Link,
    ) -> Result<Came<Link, KeyChange>, AllocError> {
        turned(alloc, self, at, link)
    }

    fn settle(&mut self, change: KeyChange) {
        self.go_back(change.mark.as_ref());
    }
}

//! The key server.

ghost use Rattle.std.specs.Prelude.{◌≡◌, ◌+◌, ◌-◌, ◌^◌, ◌<◌, ◌↔◌, Err, IfOk, OnErr, find};
ghost use Rattle.std.specs.Option.{option_map};
ghost use Rattle.cx_keyring.specs.Entries.{is_named};
ghost use Rattle.cx_rotate.specs.Keeping.{IsKeptState};

use crate::issuance::Issuance;
use crate::issuing::{TicketRequest, issued, wants_memory};
use crate::refusals::{GidsSpent, IssueRefusal, NotADaemon};
use crate::rotation::rotate;
use crate::services::generations_of;
use cx_base::{EntityName, EntityType, Reading};
use cx_dice::Draw;
use cx_keyring::{Key, Keyring};
use cx_rotate::{Generations, KeptState};
use cx_sealed::SealKey;
use std::alloc::Global;
use std::marker::Model;

/// The monitor's key server: the entities of its keyring, and the state that it keeps.
#[derive(Debug, Drop)]
pub struct KeyServer {
    ring: Keyring,
    state: KeptState,
}

impl Model for KeyServer {
    ghost use Rattle.cx_rotate.specs.Keeping.{IsKeptState};
    ghost use Rattle.cx_keyserver.specs.Servers.{Server};

    ghost Value = { Server };

    ghost view = { λ s. record { ring = s.ring; state = s.state } };

    ghost invariant = { λ s. IsKeptState s.state };
}

impl KeyServer {
    ghost use Rattle.cx_keyserver.specs.Servers.{Server, adds_any, rotated_server, secrets_of};
    ghost use Rattle.cx_keyserver.specs.Issuing.{IsIssued, IsOpenable, asking, issued, server_behind};

    /// The key server of this keyring and this state.
    pub fn new(ring: Keyring, state: KeptState) -> KeyServer
        requires { IsKeptState state }
        ensures { result ≡ record { ring = ring; state = state } }
    {
        KeyServer { ring, state }
    }

    /// The state that is to be kept.
    pub fn state(&self) -> KeptState
        ensures value { result ≡ self.now.state }
        ensures kept { IsKeptState result }
    {
        self.state
    }

    /// Puts the state in place of the server's.
    pub fn restore(&mut self, state: KeptState)
        requires { IsKeptState state }
        ensures { self.new ≡ record { ring = self.old.ring; state = state } }
    {
        self.state = state;
    }

    /// Rotates the generations of all four services, and answers whether any were added.
    pub fn rotate(&mut self, now: Reading, draw: &Draw) -> bool
        requires { now < 4000000000000000000 }
        ensures state { self.new ≡ rotated_server now draw.now.bytes self.old }
        ensures added { result ≡ adds_any now draw.now.bytes self.old.state }
    {
        rotate(&mut self.state, now, draw)
    }

    /// The key of an entity.
    pub fn key_of(&self, name: &EntityName) -> Option<Key>
        ensures { result ≡ option_map (λ entry. entry.key) (find (is_named name.now) self.now.ring) }
    {
        self.ring.find(name).map(|entry| entry.key)
    }

    /// Gives out the next global id.
    pub fn next_gid(&mut self) -> Result<u64, GidsSpent>
        ensures gid { IfOk result (λ gid. gid ≡ self.old.state.next_gid) }
        ensures given { IfOk result (λ gid. self.new ≡ record self.old { state = record self.old.state { next_gid = gid + 1 } }) }
        ensures spent { OnErr result (self.old.state.next_gid ≡ 2 ^ 64 - 1) }
        ensures some { IfOk result (λ gid. gid < 2 ^ 64 - 1) }
        ensures err { OnErr result (self.new ≡ self.old) }
    {
        let gid = self.state.next_gid;
        if gid == u64::MAX {
            return Err(GidsSpent);
        }
        self.state.next_gid = gid + 1;
        Ok(gid)
    }

    /// Issues a ticket of the entity for a service: it rotates the generations first, and seals the ticket under the current one.
    /// `auth_session` is the session key of the entity's AUTH ticket, which a ticket for AUTH doesn't use. The rotation stays
    /// behind a refusal; where memory is wanting, the server is as before.
    pub fn issue(
        &mut self,
        alloc: Global,
        name: &EntityName,
        service: EntityType,
        gid: u64,
        auth_session: &SealKey,
        now: Reading,
        draw: &Draw,
    ) -> Result<Issuance, IssueRefusal>
        requires { now < 4000000000000000000 }
        ensures issued { IsIssued (issued (rotated_server now draw.now.bytes self.old) (asking name.now service gid auth_session.now now draw.now.bytes)) result }
        ensures opens { IfOk result (IsOpenable (rotated_server now draw.now.bytes self.old) (asking name.now service gid auth_session.now now draw.now.bytes)) }
        ensures stands { self.new ≡ server_behind self.old now draw.now.bytes result }
    {
        let mut rotated = self.state;
        rotate(&mut rotated, now, draw);
        let request = TicketRequest {
            name,
            service,
            gid,
            auth_session,
            reading: now,
            draw,
        };
        let answer = issued(alloc, &self.ring, &rotated, &request);
        if !wants_memory(&answer) {
            self.state = rotated;
        }
        answer
    }

    /// The generations of a daemon's own type, which it is told.
    pub fn secrets_for(&self, name: &EntityName) -> Result<Generations, NotADaemon>
        ensures { result ≡ secrets_of self.now name.now }
    {
        if self.ring.find(name).is_none() || !name.kind.is_daemon() {
            return Err(NotADaemon);
        }
        Ok(generations_of(&self.state, name.kind))
    }
}

//! What a client has of its own.

ghost use Rattle.std.specs.Prelude.{◌≡◌, ◌<◌, ◌-◌, ◌^◌, [], true, Some, IfOk, IfNone, IfSome, OnOk, OnErr, find};
ghost use Rattle.std.specs.Option.{option_copied};
ghost use Rattle.cx_node.specs.Made.{as_row};
ghost use Rattle.cx_client_events.specs.cx_client_connect.specs.presenting.Rows as call_rows;
ghost use Rattle.cx_node.specs.cx_rules.specs.Connector.{is_open, kept_open};
ghost use Rattle.cx_node.specs.cx_rules.specs.Requests.{Requests};
ghost use Rattle.cx_node.specs.cx_rules.specs.Secured.{Secured};
ghost use Rattle.cx_client_events.specs.cx_rules_session.specs.ClientRule as rule;
ghost use Rattle.cx_client_events.specs.cx_rules_session.specs.Forgets.{abridged_client_link};
ghost use Rattle.cx_client_events.specs.cx_rules_session.specs.Sessions.{session_with, ticket_for};
ghost use Rattle.cx_client_events.specs.cx_client_connect.specs.session.Table.{having_pushed, in_session};
ghost use Rattle.cx_node.specs.steps.Making.{row_due};
ghost use Rattle.cx_holdings.specs.cx_wire.specs.Operations.{IsWritable};
ghost use Rattle.cx_client_events.specs.cx_rules_session.specs.ClientRule.{ToMonitor};
ghost use Rattle.cx_client_events.specs.cx_rules_session.specs.Kinds.{of_kind};
ghost use Rattle.cx_client_events.specs.linking.Ahead.{IsAheadAt, row_on};
ghost use Rattle.cx_client_events.specs.Machine.{banner_sent, called_with, tickets_asked};
ghost use Rattle.cx_client_events.specs.Turns.{with_change};

use crate::{
    CallChange, Called, Callee, Change, Dial, Dials, HeldSession, Link, MonitorLink, OpenAhead,
    Purpose, Sessions, asks_tickets, call_greeting, held_gid, monitor_greeting, named, of_daemon,
    of_monitor, ticket_for,
};
use cx_base::{Duplicate, EntityName, NodeName, Operation};
use cx_holdings::MonClient;
use cx_journal::Reason;
use cx_node::{Moment, Row};
use cx_steps::Peer;
use std::alloc::{AllocError, Global};
use std::marker::Model;

/// Itself as one that asks the monitor, the links that it waits for, and its sessions with daemons.
#[derive(Drop)]
pub struct Own {
    mon_client: MonClient,
    dials: Dials,
    sessions: Sessions,
}

impl Model for Own {
    ghost use Rattle.cx_client_events.specs.Machine.{KeptClient};

    ghost Value = { KeptClient };

    ghost view = { λ o. record { client = record { mon_client = o.mon_client; dials = o.dials; sessions = o.sessions.sessions }; room = o.sessions.room } };
}

impl Own {
    ghost use Rattle.cx_node.specs.cx_rules.specs.Holdings.{afresh};
    ghost use Rattle.cx_client_events.specs.cx_rules_session.specs.ClientRule.{caller_to, dial_of, me, undialled, waits_for_login, with_caller};
    ghost use Rattle.cx_client_events.specs.cx_client_connect.specs.session.Table.{without_lossy};

    /// One that asks the monitor so waits for no link yet, and has no session.
    pub fn new(alloc: Global, mon_client: MonClient) -> Own
        ensures { result.client ≡ record { mon_client = mon_client; dials = []; sessions = [] } }
    {
        Own {
            mon_client,
            dials: Dials::new(alloc),
            sessions: Sessions::new(alloc),
        }
    }

    /// Itself as one that asks the monitor.
    pub fn mon_client(&self) -> &MonClient
        ensures { result.now ≡ self.now.client.mon_client }
    {
        &self.mon_client
    }

    /// Its sessions.
    pub fn sessions(&self) -> &Sessions
        ensures { result.now.sessions ≡ self.now.client.sessions }
    {
        &self.sessions
    }

    /// Its session with this daemon.
    pub fn session_with(&self, daemon: &EntityName) -> Option<&HeldSession>
        ensures { option_copied result ≡ session_with daemon.now self.now.client.sessions }
    {
        self.sessions.with(daemon)
    }

    /// Who it is, as a node.
    pub fn named(&self, alloc: Global) -> Result<NodeName, AllocError>
        ensures { IfOk result (λ named. named ≡ me self.now.client) }
    {
        named(alloc, &self.mon_client)
    }

    // ---- links that are waited for

    /// A link to the monitor is waited for from now on. Where memory is wanting, all is as before.
    pub fn wait_for_login(&mut self, services: u32) -> Result<(), AllocError>
        ensures ok { OnOk result (self.new.client ≡ record self.old.client { dials = waits_for_login self.old.client.dials services }) }
        ensures err { OnErr result (self.new ≡ self.old) }
    {
        self.dials.wait_for_login(services)
    }

    /// A daemon as it is called now, with the ticket for its service and the global id that are held, or why it can't be.
    pub fn called(
        &self,
        alloc: Global,
        callee: Callee,
    ) -> Result<Result<Called, Reason>, AllocError>
        ensures called { IfOk result (λ called. called ≡ called_with self.now.client callee (ticket_for callee.daemon.kind self.now.client.mon_client.holdings)) }
        ensures counted { IfOk result (λ called. OnOk called (self.now.client.mon_client.global_seq < 2 ^ 64 - 1)) }
    {
        match ticket_for(&self.mon_client, callee.daemon.kind) {
            None => Ok(Err(Reason::NoTicket(callee.daemon.kind))),
            Some(held) => {
                if self.mon_client.global_seq() == u64::MAX {
                    return Ok(Err(Reason::Spent));
                }
                let held = held.copy(alloc)?;
                Ok(Ok(Called {
                    callee,
                    held,
                    gid: held_gid(&self.mon_client),
                }))
            }
        }
    }

    /// A link to a daemon is waited for from now on, and the connections to daemons are counted. Where memory is wanting, all is as before.
    pub fn call(&mut self, called: Called) -> Result<(), AllocError>
        requires { self.old.client.mon_client.global_seq < 2 ^ 64 - 1 }
        ensures ok { OnOk result (self.new.client ≡ (rule.calls (record { own = self.old.client; links = [] }) called).state.own) }
        ensures err { OnErr result (self.new ≡ self.old) }
    {
        self.dials.wait_for_call(called)?;
        let count = self.mon_client.global_seq();
        self.mon_client.put_global_seq(count + 1);
        Ok(())
    }

    /// What a link to this peer is waited for, which isn't waited for any more.
    pub fn take_dial(&mut self, peer: &Peer) -> Option<Dial>
        ensures dial { result ≡ find (dial_of peer.now) self.old.client.dials }
        ensures own { self.new.client ≡ (undialled (record { own = self.old.client; links = [] }) peer.now).own }
        ensures none { IfNone result (self.new ≡ self.old) }
    {
        self.dials.take(peer)
    }

    /// A link to this peer isn't waited for any more.
    pub fn give_up_dial(&mut self, peer: &Peer)
        ensures { self.new.client ≡ (undialled (record { own = self.old.client; links = [] }) peer.now).own }
    {
        self.dials.give_up(peer);
    }

    // ---- sessions

    /// Takes the memory that a change of a session takes. Nothing else is changed.
    pub fn reserve(&mut self, alloc: Global) -> Result<(), AllocError>
        ensures ok { OnOk result (0 < self.new.room) }
        ensures same { self.new.client ≡ self.old.client }
    {
        self.sessions.reserve(alloc)
    }

    /// An operation waits in the session with this daemon from now on, if there is one that would take it. Where memory is wanting, all is as before.
    pub fn push(
        &mut self,
        alloc: Global,
        daemon: &EntityName,
        operation: Operation,
    ) -> Result<(), AllocError>
        requires { IsWritable operation }
        ensures ok { OnOk result (self.new.client ≡ record self.old.client { sessions = in_session daemon.now (having_pushed operation) self.old.client.sessions }) }
        ensures err { OnErr result (self.new.client ≡ self.old.client) }
    {
        self.sessions.push(alloc, daemon, operation)
    }

    /// A session with this daemon that ends with its link is forgotten.
    pub fn forget_lossy(&mut self, daemon: &EntityName)
        ensures { self.new.client ≡ record self.old.client { sessions = without_lossy daemon.now self.old.client.sessions } }
    {
        self.sessions.forget_lossy(daemon);
    }

    // ---- what a row changes

    /// Changes what a row of either kind changes. It wants no memory: a session that is opened takes what stands ready for it.
    pub fn settle(&mut self, change: Change)
        requires { 0 < self.old.room }
        ensures { self.new.client ≡ with_change self.old.client change }
    {
        match change {
            Change::Asked(change) => change.settle(&mut self.mon_client),
            Change::Called(daemon, change) => self.settle_call(&daemon, change.unboxed()),
        }
    }

    fn settle_call(&mut self, daemon: &EntityName, change: CallChange)
        requires { 0 < self.old.room }
        ensures { self.new.client ≡ with_caller daemon.now self.old.client (call_rows.changed (caller_to daemon.now self.old.client) change) }
    {
        match change {
            CallChange::Session(change) => self.sessions.change(daemon, change),
            CallChange::Counts(count) => self.mon_client.put_global_seq(count),
        }
    }

    /// Begins anew.
    pub fn begin_anew(&mut self)
        ensures { self.new.client ≡ record { mon_client = afresh self.old.client.mon_client; dials = []; sessions = [] } }
    {
        self.mon_client.begin_anew();
        self.dials.clear();
        self.sessions.clear();
    }

    // ---- rows that no link's turn makes

    /// The row of a link that opens, and was waited for.
    pub fn greets(
        &self,
        alloc: Global,
        at: &Moment<'_>,
        dial: Dial,
    ) -> Result<Row<Link>, AllocError>
        ensures { IfOk result (λ row. as_row self.now.client row
            ≡ row_due abridged_client_link (banner_sent self.now.client at.now.number at.now.reading at.now.draw.now.bytes dial)) }
    {
        match dial.purpose {
            Purpose::Login(services) => {
                let row = monitor_greeting(alloc, at.number, services)?;
                Ok(of_monitor(row))
            }
            Purpose::Call(called) => {
                let row = call_greeting(alloc, at.number, called)?;
                of_daemon(alloc, row)
            }
        }
    }

    /// The row by which tickets are asked for on a link that is open: by what that goes on by behind the request, which is sealed ahead on it.
    pub fn asks_tickets(
        &self,
        alloc: Global,
        at: &Moment<'_>,
        link: &MonitorLink,
        services: u32,
    ) -> Result<Row<OpenAhead>, AllocError>
        requires number { link.now.number ≡ at.now.number }
        requires open { is_open link.now.stage ≡ true }
        ensures { (s : Secured) (requests : Requests) → kept_open link.now.stage ≡ Some (s, requests)
            → IfOk result (λ row. (as_row self.now.client (row_on (of_kind ToMonitor link.now) row)
            ≡ row_due abridged_client_link (tickets_asked self.now.client at.now.reading at.now.draw.now.bytes services link.now s requests))
            × IfSome row.link (IsAheadAt (ToMonitor link.now.stage))) }
    {
        asks_tickets(alloc, &self.mon_client, at, link, services)
    }
}

//! What a daemon has of its own.

ghost use Rattle.std.specs.Prelude.{◌≡◌, true, false, Some, IfOk, IfSome};
ghost use Rattle.cx_node.specs.Made.{as_row};
ghost use Rattle.cx_node.specs.cx_rules.specs.Connector.{is_open, kept_open};
ghost use Rattle.cx_node.specs.cx_rules.specs.Requests.{Requests, is_outdated};
ghost use Rattle.cx_node.specs.cx_rules.specs.Secured.{Secured};
ghost use Rattle.cx_verifying.specs.cx_rules_session.specs.DaemonRule.{AsConnector};
ghost use Rattle.cx_verifying.specs.cx_rules_session.specs.Forgets.{abridged_daemon_link};
ghost use Rattle.cx_verifying.specs.cx_rules_session.specs.Kinds.{of_kind};
ghost use Rattle.cx_node.specs.steps.Making.{row_due};
ghost use Rattle.cx_daemon_events.specs.Ahead.{IsAheadAt, row_on};
ghost use Rattle.cx_daemon_events.specs.Machine.{banner_sent, generations_asked, incoming_greeted};

use crate::kinds::{of_incoming, of_own};
use crate::links::Link;
use cx_base::{Addr, EntityName, NodeName, Reading};
use cx_enc::Key;
use cx_holdings::{MonClient, OfferedModes};
use cx_monclient as connector;
use cx_node::{Moment, Row};
use cx_rotate::View;
use cx_verifying as incoming_links;
use std::alloc::{AllocError, Global};
use std::marker::Model;

/// Itself as one that asks the monitor, with the generations that it was told last, and whether it waits for a link to the monitor that it opens.
#[derive(Drop)]
pub struct Own {
    mon_client: MonClient,
    dials: bool,
}

impl Model for Own {
    ghost use Rattle.cx_verifying.specs.cx_rules_session.specs.DaemonRule.{Daemon};

    ghost Value = { Daemon };

    ghost view = { λ o. record { mon_client = o.mon_client; dials = o.dials } };
}

impl Own {
    ghost use Rattle.cx_node.specs.cx_rules.specs.Holdings.{afresh};
    ghost use Rattle.cx_verifying.specs.cx_rules_session.specs.DaemonRule.{me, with_mon_client};
    ghost use Rattle.cx_monclient.specs.connector.Rows.{changed};
    ghost use Rattle.cx_daemon_events.specs.Machine.{opening_mon_client};

    /// As the daemon begins.
    pub fn new(name: EntityName, key: Key, modes: OfferedModes, address: Addr) -> Own
        ensures { result ≡ record { mon_client = opening_mon_client name key modes address; dials = false } }
    {
        Own {
            mon_client: MonClient::new(name, key, address, modes),
            dials: false,
        }
    }

    /// Itself as one that asks the monitor.
    pub fn mon_client(&self) -> &MonClient
        ensures { result.now ≡ self.now.mon_client }
    {
        &self.mon_client
    }

    /// Who it is, as a node.
    pub fn named(&self, alloc: Global) -> Result<NodeName, AllocError>
        ensures { IfOk result (λ named. named ≡ me self.now) }
    {
        connector::named(alloc, &self.mon_client)
    }

    /// Whether it waits for a link to the monitor.
    pub fn dials(&self) -> bool
        ensures { result ≡ self.now.dials }
    {
        self.dials
    }

    /// It waits for one from now on, or for none.
    pub fn dial(&mut self, dials: bool)
        ensures { self.new ≡ record self.old { dials = dials } }
    {
        self.dials = dials;
    }

    /// Another view is looked at from now on.
    pub fn put_view(&mut self, view: View)
        ensures { self.new ≡ record self.old { mon_client = record self.old.mon_client { view = view } } }
    {
        self.mon_client.put_view(view);
    }

    /// What a row of a link to the monitor changes.
    pub fn settle(&mut self, change: connector::BoxedChange)
        ensures { self.new ≡ with_mon_client self.old (changed self.old.mon_client change) }
    {
        change.settle(&mut self.mon_client);
    }

    /// Begins anew.
    pub fn begin_anew(&mut self)
        ensures { self.new ≡ record { mon_client = afresh self.old.mon_client; dials = false } }
    {
        self.mon_client.begin_anew();
        self.dials = false;
    }

    /// Whether no generations are held, or the second of them has expired.
    pub fn is_outdated(&self, reading: Reading) -> bool
        ensures { result ≡ is_outdated reading self.now.mon_client.view }
    {
        let Some(three) = self.mon_client.view().generations.all() else {
            return true;
        };
        let [_, second, _] = three;
        second.expires <= reading
    }

    /// The row of its own link to the monitor that opens.
    pub fn greets(&self, alloc: Global, at: &Moment<'_>) -> Result<Row<Link>, AllocError>
        ensures { IfOk result (λ row. as_row self.now row ≡ row_due abridged_daemon_link (banner_sent self.now at.now.number at.now.reading at.now.draw.now.bytes)) }
    {
        let row = connector::greeting(alloc, at.number, 0)?;
        Ok(of_own(row))
    }

    /// The row of an incoming link that opens: the banner is sent, or it is shut where as many links live as there are places.
    pub fn greets_incoming(
        &self,
        alloc: Global,
        at: &Moment<'_>,
        full: bool,
    ) -> Result<Row<Link>, AllocError>
        ensures { IfOk result (λ row. as_row self.now row ≡ row_due abridged_daemon_link (incoming_greeted full self.now at.now.number at.now.reading at.now.draw.now.bytes)) }
    {
        let row = incoming_links::greeting(alloc, &self.mon_client, at, full)?;
        Ok(of_incoming(row))
    }

    /// The row by which generations are asked for on a link that is open: by what that goes on by behind the request, which is sealed ahead on it.
    pub fn asks_generations(
        &self,
        alloc: Global,
        at: &Moment<'_>,
        link: &connector::Link,
    ) -> Result<Row<connector::OpenAhead>, AllocError>
        requires number { link.now.number ≡ at.now.number }
        requires open { is_open link.now.stage ≡ true }
        ensures { (s : Secured) (requests : Requests) → kept_open link.now.stage ≡ Some (s, requests)
            → IfOk result (λ row. (as_row self.now (row_on (of_kind AsConnector link.now) row)
            ≡ row_due abridged_daemon_link (generations_asked self.now at.now.reading at.now.draw.now.bytes link.now s requests))
            × IfSome row.link (IsAheadAt (AsConnector link.now.stage))) }
    {
        connector::asks_generations(alloc, &self.mon_client, at, link)
    }
}

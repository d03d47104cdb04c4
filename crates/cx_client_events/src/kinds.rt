//! What was made on a link of a kind, as made on one of the client.

ghost use Rattle.std.specs.Prelude.{◌≡◌, IfOk};
ghost use Rattle.std.specs.Option.{option_map};
ghost use Rattle.cx_node.specs.cx_rules_session.specs.ClientRule.{ToDaemon, ToMonitor};
ghost use Rattle.cx_node.specs.cx_rules_session.specs.Kinds.{of_kind};
ghost use Rattle.cx_node.specs.kinds.Made.{came_of_kind, made_of_kind};
ghost use Rattle.cx_client_events.specs.declared.kinds.Change.TheVariants.{Asked, Called};

use crate::links::{Kind, Link};
use cx_base::EntityName;
use cx_client_connect as calls;
use cx_monclient as connector;
use cx_node::{Came, NodeRow, Row};
use std::alloc::{AllocError, Global};
use std::marker::Model;

/// What a row of either kind changes of what the client has.
#[derive(Drop)]
pub enum Change {
    /// What it holds as one that asks the monitor.
    Asked(connector::BoxedChange),
    /// Its session with this daemon, or its count of connections.
    Called(EntityName, BoxedCallChange),
}

/// What a row of a link to a daemon changes, on its way to be settled. It is boxed: it goes by value from call to call, mostly where there is
/// none, and may have a whole session.
#[derive(Drop)]
pub struct BoxedCallChange {
    change: Box<calls::Change>,
}

impl Model for BoxedCallChange {
    ghost use Rattle.cx_client_connect.specs.declared.rows.Change.{Change};

    ghost Value = { Change };

    ghost view = { λ c. c.change.value };
}

impl BoxedCallChange {
    ghost use Rattle.std.specs.Prelude.{◌≡◌, IfOk};

    // Boxes it. Where memory is wanting it is given up.
    fn new(alloc: Global, change: calls::Change) -> Result<BoxedCallChange, AllocError>
        ensures { IfOk result (λ boxed. boxed ≡ change) }
    {
        let change = Box::new(alloc, change)?;
        Ok(BoxedCallChange { change })
    }

    /// The change itself.
    pub fn unboxed(self) -> calls::Change
        ensures { result ≡ self }
    {
        let BoxedCallChange { change } = self;
        Box::into_inner(change)
    }
}

/// A row on a link to the monitor.
pub fn of_monitor(row: Row<connector::Link>) -> Row<Link>
    ensures { result ≡ made_of_kind ToMonitor row }
{
    let Row {
        link,
        sends,
        save,
        entries,
        seals,
    } = row;
    let link = match link {
        Some(link) => Some(Link {
            kind: Kind::Monitor(link),
        }),
        None => None,
    };
    Row {
        link,
        sends,
        save,
        entries,
        seals,
    }
}

/// A row on a link to a daemon.
pub fn of_daemon(alloc: Global, row: Row<calls::Link>) -> Result<Row<Link>, AllocError>
    ensures { IfOk result (λ made. made ≡ made_of_kind ToDaemon row) }
{
    let Row {
        link,
        sends,
        save,
        entries,
        seals,
    } = row;
    let link = match link {
        Some(link) => Some(boxed(alloc, link)?),
        None => None,
    };
    Ok(Row {
        link,
        sends,
        save,
        entries,
        seals,
    })
}

// A link to a daemon, as one of the client.
fn boxed(alloc: Global, link: calls::Link) -> Result<Link, AllocError>
    ensures { IfOk result (λ boxed. boxed ≡ of_kind ToDaemon link) }
{
    let link = Box::new(alloc, link)?;
    Ok(Link {
        kind: Kind::Daemon(link),
    })
}

/// What a turn of a link to the monitor came to.
pub fn came_of_monitor(came: Came<connector::Link, connector::BoxedChange>) -> Came<Link, Change>
    ensures { result ≡ came_of_kind ToMonitor (option_map Asked) came }
{
    match came {
        Came::Waits(link) => Came::Waits(Link {
            kind: Kind::Monitor(link),
        }),
        Came::Refuses(why, opened) => Came::Refuses(why, opened),
        Came::Handles(NodeRow { row, change }) => Came::Handles(NodeRow {
            row: of_monitor(row),
            change: asked(change),
        }),
    }
}

fn asked(change: Option<connector::BoxedChange>) -> Option<Change>
    ensures { result ≡ option_map Asked change }
{
    match change {
        Some(change) => Some(Change::Asked(change)),
        None => None,
    }
}

/// What a turn of a link to this daemon came to.
pub fn came_of_daemon(
    alloc: Global,
    daemon: EntityName,
    came: Came<calls::Link, calls::Change>,
) -> Result<Came<Link, Change>, AllocError>
    ensures { IfOk result (λ made. made ≡ came_of_kind ToDaemon (option_map (Called daemon)) came) }
{
    match came {
        Came::Waits(link) => {
            let link = boxed(alloc, link)?;
            Ok(Came::Waits(link))
        }
        Came::Refuses(why, opened) => Ok(Came::Refuses(why, opened)),
        Came::Handles(NodeRow { row, change }) => {
            let row = of_daemon(alloc, row)?;
            let change = called(alloc, daemon, change)?;
            Ok(Came::Handles(NodeRow { row, change }))
        }
    }
}

fn called(
    alloc: Global,
    daemon: EntityName,
    change: Option<calls::Change>,
) -> Result<Option<Change>, AllocError>
    ensures { IfOk result (λ made. made ≡ option_map (Called daemon) change) }
{
    match change {
        Some(change) => {
            let change = BoxedCallChange::new(alloc, change)?;
            Ok(Some(Change::Called(daemon, change)))
        }
        None => Ok(None),
    }
}

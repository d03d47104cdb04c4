//! What was made on a link of a kind, as made on one of the daemon.

ghost use Rattle.std.specs.Prelude.{◌≡◌, None};
ghost use Rattle.cx_verifying.specs.cx_rules_session.specs.DaemonRule.{AsAcceptor, AsConnector};
ghost use Rattle.cx_daemon_events.specs.Kinds.{came_of_kind, made_of_kind};

use crate::links::{Kind, Link};
use cx_monclient as connector;
use cx_node::{Came, NodeRow, Row};
use cx_verifying as incoming_links;

/// A row on an incoming link.
pub fn of_incoming(row: Row<incoming_links::Link>) -> Row<Link>
    ensures { result ≡ made_of_kind AsAcceptor row }
{
    let Row {
        link,
        sends,
        save,
        entries,
        seals,
    } = row;
    let link = match link {
        Some(link) => Some(Link {
            kind: Kind::Incoming(link),
        }),
        None => None,
    };
    Row {
        link,
        sends,
        save,
        entries,
        seals,
    }
}

/// A row on a link of the daemon's own.
pub fn of_own(row: Row<connector::Link>) -> Row<Link>
    ensures { result ≡ made_of_kind AsConnector row }
{
    let Row {
        link,
        sends,
        save,
        entries,
        seals,
    } = row;
    let link = match link {
        Some(link) => Some(Link {
            kind: Kind::Own(link),
        }),
        None => None,
    };
    Row {
        link,
        sends,
        save,
        entries,
        seals,
    }
}

/// What a turn of an incoming link came to: nothing of the daemon's own is changed.
pub fn came_of_incoming(came: Came<incoming_links::Link, ()>) -> Came<Link, connector::BoxedChange>
    ensures { result ≡ came_of_kind AsAcceptor (λ _. None) came }
{
    match came {
        Came::Waits(link) => Came::Waits(Link {
            kind: Kind::Incoming(link),
        }),
        Came::Refuses(why, opened) => Came::Refuses(why, opened),
        Came::Handles(NodeRow { row, change: _ }) => Came::Handles(NodeRow {
            row: of_incoming(row),
            change: None,
        }),
    }
}

/// What a turn of a link of the daemon's own came to.
pub fn came_of_own(
    came: Came<connector::Link, connector::BoxedChange>,
) -> Came<Link, connector::BoxedChange>
    ensures { result ≡ came_of_kind AsConnector (λ change. change) came }
{
    match came {
        Came::Waits(link) => Came::Waits(Link {
            kind: Kind::Own(link),
        }),
        Came::Refuses(why, opened) => Came::Refuses(why, opened),
        Came::Handles(NodeRow { row, change }) => Came::Handles(NodeRow {
            row: of_own(row),
            change,
        }),
    }
}

//! What the rows of one that logs in change of what it holds.

ghost use Rattle.std.specs.Prelude.{◌≡◌};
ghost use Rattle.cx_monclient.specs.connector.Rows.{changed};

use cx_holdings::{Login, MonClient, Renewed};
use cx_rotate::View;
use std::alloc::{AllocError, Global};
use std::marker::Model;

/// What a row changes of what is held.
#[derive(Drop)]
pub enum Change {
    /// The global id and all tickets are forgotten.
    Forgets,
    /// A login is held.
    Holds(Login),
    /// Tickets that a reply told are held.
    Renews(Renewed),
    /// The generations that a reply told are the view, with the reading at which they were asked for.
    Views(View),
}

impl Change {
    // Changes what is held.
    fn settle(self, mon_client: &mut MonClient)
        ensures { mon_client.new ≡ changed mon_client.old self }
    {
        match self {
            Change::Forgets => mon_client.forget(),
            Change::Holds(login) => mon_client.hold(login),
            Change::Renews(renewed) => mon_client.renew(renewed),
            Change::Views(view) => mon_client.put_view(view),
        }
    }
}

/// A change on its way to be settled. It is boxed: it goes by value from call to call, mostly where there is none, and has the secrets of a login.
#[derive(Drop)]
pub struct BoxedChange {
    change: Box<Change>,
}

impl Model for BoxedChange {
    ghost use Rattle.cx_monclient.specs.declared.rows.Change.{Change};

    ghost Value = { Change };

    ghost view = { λ c. c.change.value };
}

impl BoxedChange {
    ghost use Rattle.std.specs.Prelude.{◌≡◌, IfOk};
    ghost use Rattle.cx_monclient.specs.connector.Rows.{changed};

    // Boxes it. Where memory is wanting it is given up.
    pub(crate) fn new(alloc: Global, change: Change) -> Result<BoxedChange, AllocError>
        ensures { IfOk result (λ boxed. boxed ≡ change) }
    {
        let change = Box::new(alloc, change)?;
        Ok(BoxedChange { change })
    }

    /// Changes what is held. It wants no memory.
    pub fn settle(self, mon_client: &mut MonClient)
        ensures { mon_client.new ≡ changed mon_client.old self }
    {
        let BoxedChange { change } = self;
        let change = Box::into_inner(change);
        change.settle(mon_client);
    }
}

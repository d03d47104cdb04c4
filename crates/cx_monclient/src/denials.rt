//! AUTH_BAD_METHOD.

ghost use Rattle.cx_link.specs.Wires.{Wire, wired};
ghost use Rattle.cx_node.specs.cx_rules.specs.Connector.{Stage, on_denial};
ghost use Rattle.cx_monclient.specs.connector.Rows.{Makes, denied};

use crate::links::Link;
use crate::making::{changing, named};
use crate::rows::{BoxedChange, Change};
use cx_base::Items;
use cx_control::AuthBadMethod;
use cx_holdings::MonClient;
use cx_journal::{BytesFault, Reason};
use cx_node::{Moment, NoRow, NodeRow, refuses};
use std::alloc::Global;

// The code of the refusal is kept of it.
pub(crate) fn on_bad_method(
    alloc: Global,
    mon_client: &MonClient,
    at: &Moment<'_>,
    read: Result<AuthBadMethod, BytesFault>,
) -> Result<NodeRow<Link, BoxedChange>, NoRow>
    ensures { (wire : Wire) (stage : Stage) → Makes mon_client.now at.now (wired at.now.number wire stage) (λ a. denied a read) result }
{
    let refusal = read?;
    on_denial(alloc, mon_client, at, refusal.result)
}

// At the code 13 the global id and all tickets are forgotten.
fn on_denial(
    alloc: Global,
    mon_client: &MonClient,
    at: &Moment<'_>,
    code: u32,
) -> Result<NodeRow<Link, BoxedChange>, NoRow>
    ensures { (wire : Wire) (stage : Stage) → Makes mon_client.now at.now (wired at.now.number wire stage) (λ a. on_denial a code) result }
{
    let why = Reason::Denied(code);
    if code != cx_link::code::PERMISSION_DENIED {
        return Err(NoRow::Refused(why));
    }
    let me = named(alloc, mon_client)?;
    let row = refuses(alloc, &me, at.number, why, Items::new(alloc))?;
    Ok(changing(alloc, row, Change::Forgets)?)
}

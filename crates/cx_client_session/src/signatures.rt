//! AUTH_SIGNATURE.

ghost use Rattle.std.specs.Prelude.{◌≡◌};
ghost use Rattle.std.specs.Option.{option_copied};
ghost use Rattle.cx_link.specs.Sending.{secured_of};
ghost use Rattle.cx_link.specs.Wires.{secured_link};
ghost use Rattle.cx_client_connect.specs.cx_rules_session.specs.Presenter.{CallStage, on_signature};
ghost use Rattle.cx_client_connect.specs.presenting.Rows.{MakesFor, caller};
ghost use Rattle.cx_client_connect.specs.presenting.Stages.{awaiting_signature};
ghost use Rattle.cx_client_session.specs.calling.Sent.{signed_on};

use crate::idents::identifies;
use crate::reconnects::takes_up;
use cx_base::Items;
use cx_client_connect::{Callee, Change, HeldSession, Link};
use cx_control::AuthSignature;
use cx_holdings::MonClient;
use cx_journal::BytesFault;
use cx_link::{Checked, Signing};
use cx_node::{Moment, NoRow, NodeRow, checked};
use std::alloc::Global;

// The daemon's signature has to cover all that was sent before one's own.
pub(crate) fn on_signature(
    alloc: Global,
    mon_client: &MonClient,
    global_seq: u64,
    session: Option<&HeldSession>,
    at: &Moment<'_>,
    signing: Signing,
    callee: Callee,
    read: Result<AuthSignature, BytesFault>,
) -> Result<NodeRow<Link, Change>, NoRow>
    requires { global_seq ≡ mon_client.now.global_seq }
    ensures { MakesFor (caller mon_client.now (option_copied session.entry)) at.now (awaiting_signature at.now.number signing callee)
        (λ a. on_signature a (secured_of signing) callee read) result }
{
    let found = checked(signing, read)?;
    on_signed(alloc, mon_client, global_seq, session, at, found, callee)
}

// A session is opened, or the one that is held is taken up again.
fn on_signed(
    alloc: Global,
    mon_client: &MonClient,
    global_seq: u64,
    session: Option<&HeldSession>,
    at: &Moment<'_>,
    found: Checked,
    callee: Callee,
) -> Result<NodeRow<Link, Change>, NoRow>
    requires { global_seq ≡ mon_client.now.global_seq }
    ensures { (stage : CallStage) → MakesFor (caller mon_client.now (option_copied session.entry)) at.now (secured_link at.now.number found.link.ahead stage)
        (λ a. signed_on a found.link.keys callee found.entry (option_copied session.entry)) result }
{
    let Checked { link, entry } = found;
    let mut before = Items::new(alloc);
    before.push(alloc, entry)?;
    match session {
        Some(session) => {
            let row = takes_up(
                alloc, mon_client, global_seq, at, link, callee, before, session,
            )?;
            Ok(row)
        }
        None => {
            let row = identifies(alloc, mon_client, at, link, callee, before)?;
            Ok(NodeRow::keeping(row))
        }
    }
}

//! AUTH_BAD_METHOD, and why a daemon's answer is refused.

ghost use Rattle.std.specs.Prelude.{◌≡◌};
ghost use Rattle.cx_link.specs.Wires.{Wire, wired};
ghost use Rattle.cx_client_connect.specs.cx_rules_session.specs.Presenter.{CallStage};
ghost use Rattle.cx_client_connect.specs.presenting.Rows.{Makes, denied, no_row};

use crate::links::Link;
use crate::rows::Change;
use cx_authorize::PresentRefusal;
use cx_control::AuthBadMethod;
use cx_holdings::MonClient;
use cx_journal::{BytesFault, LoginFault, Reason};
use cx_node::{Moment, NoRow, NodeRow};

// The code of the refusal is kept of it; nothing is forgotten.
pub(crate) fn on_bad_method(
    mon_client: &MonClient,
    at: &Moment<'_>,
    read: Result<AuthBadMethod, BytesFault>,
) -> Result<NodeRow<Link, Change>, NoRow>
    ensures { (wire : Wire) (stage : CallStage) → Makes mon_client.now at.now (wired at.now.number wire stage) (λ a. denied a read) result }
{
    let refusal = read?;
    Err(NoRow::Refused(Reason::Denied(refusal.result)))
}

// Why there is no row where a daemon's answer is refused.
pub(crate) fn no_row(why: PresentRefusal) -> NoRow
    ensures { result ≡ no_row why }
{
    match why {
        PresentRefusal::Malformed(place) => NoRow::from(BytesFault::Malformed(place)),
        PresentRefusal::Unopened => NoRow::Refused(Reason::Login(LoginFault::Unopened)),
        PresentRefusal::NonceWrong { expected, got } => {
            NoRow::Refused(Reason::Login(LoginFault::NonceWrong { expected, got }))
        }
        PresentRefusal::OutOfMemory => NoRow::OutOfMemory,
    }
}

//! AUTH_DONE: what the monitor gives is opened, and AUTH_SIGNATURE is sent.

ghost use Rattle.std.specs.Prelude.{[], take};
ghost use Rattle.cx_link.specs.Wires.{wired};
ghost use Rattle.cx_node.specs.cx_rules.specs.Connector.{AwaitsDone, on_done, on_login_done, on_opened, signs, while_proved};
ghost use Rattle.cx_node.specs.cx_rules.specs.Payloads.{whole};
ghost use Rattle.cx_node.specs.cx_rules.specs.Secured.{connector_keys, signed_frame};
ghost use Rattle.cx_login.specs.cx_wire.specs.Logins.{login_done_layout};
ghost use Rattle.cx_monclient.specs.connector.Rows.{Makes};

use crate::denials::on_bad_method;
use crate::links::{Link, Stage};
use crate::making::unless_refused;
use crate::rows::BoxedChange;
use cx_base::Items;
use cx_control::{AuthBadMethod, AuthDone};
use cx_frame::Frame;
use cx_holdings::{Login, MonClient};
use cx_journal::{BytesFault, LoginFault, Reason};
use cx_link::{PlainLink, tag};
use cx_login::LoggedIn;
use cx_node::{Moment, NoRow, NodeRow, due, goes_on_unchanged, payload_part};
use std::alloc::Global;

// A frame behind the proof.
pub(crate) fn while_proved(
    alloc: Global,
    mon_client: &MonClient,
    at: &Moment<'_>,
    link: PlainLink,
    frame: &Frame,
) -> Result<NodeRow<Link, BoxedChange>, NoRow>
    ensures { Makes mon_client.now at.now (wired at.now.number link AwaitsDone) (λ a. while_proved a frame.now) result }
{
    if frame.tag == tag::AUTH_BAD_METHOD {
        let read = payload_part::<AuthBadMethod>(alloc, frame)?;
        on_bad_method(alloc, mon_client, at, read)
    } else {
        let read = due::<AuthDone>(alloc, tag::AUTH_DONE, frame)?;
        on_done(alloc, mon_client, at, link, read)
    }
}

// The mode has to be 2, the secure one; what follows is a LoginDone.
fn on_done(
    alloc: Global,
    mon_client: &MonClient,
    at: &Moment<'_>,
    link: PlainLink,
    read: Result<AuthDone, BytesFault>,
) -> Result<NodeRow<Link, BoxedChange>, NoRow>
    ensures { Makes mon_client.now at.now (wired at.now.number link AwaitsDone) (λ a. on_done a read) result }
{
    let done = read?;
    if done.mode == 2 {
        on_login_done(alloc, mon_client, at, link, done.gid, done.payload.bytes())
    } else {
        Err(NoRow::Refused(Reason::Login(LoginFault::Mode)))
    }
}

// The parts of the LoginDone of this payload are opened, and logged first.
fn on_login_done(
    alloc: Global,
    mon_client: &MonClient,
    at: &Moment<'_>,
    link: PlainLink,
    gid: u64,
    payload: &[u8],
) -> Result<NodeRow<Link, BoxedChange>, NoRow>
    ensures { Makes mon_client.now at.now (wired at.now.number link AwaitsDone) (λ a. on_login_done a gid (whole login_done_layout.form payload.now)) result }
{
    let mut opened = Items::new(alloc);
    let login = mon_client.opened(alloc, payload, &mut opened)??;
    let made = on_opened(alloc, mon_client, at, link, gid, login);
    let row = unless_refused(alloc, mon_client, at, opened, made)?;
    Ok(row)
}

// Each part was opened to its record, or one wasn't.
fn on_opened(
    alloc: Global,
    mon_client: &MonClient,
    at: &Moment<'_>,
    link: PlainLink,
    gid: u64,
    login: Option<LoggedIn>,
) -> Result<NodeRow<Link, BoxedChange>, NoRow>
    ensures { Makes mon_client.now at.now (wired at.now.number link AwaitsDone) (λ a. on_opened a gid [] login) result }
{
    match login {
        Some(logged_in) => {
            let login = Login::new(alloc, gid, logged_in)?;
            signs(alloc, mon_client, at, link, login)
        }
        None => Err(NoRow::Refused(Reason::Login(LoginFault::Unopened))),
    }
}

// AUTH_SIGNATURE is sent; the peer's has to cover all that was sent before.
fn signs(
    alloc: Global,
    mon_client: &MonClient,
    at: &Moment<'_>,
    link: PlainLink,
    login: Login,
) -> Result<NodeRow<Link, BoxedChange>, NoRow>
    ensures { Makes mon_client.now at.now (wired at.now.number link AwaitsDone) (λ a. signs a login []
        (signed_frame (connector_keys login.opened.secret) login.opened.auth.session (take link.taken link.received))) result }
{
    let finished = link.sign(alloc, &login.session(), &login.secret())?;
    let link = Link::new(
        alloc,
        at.number,
        Stage::AwaitsSignature(finished.signing, login),
    )?;
    Ok(goes_on_unchanged(alloc, link, finished.bytes, finished.seals))
}

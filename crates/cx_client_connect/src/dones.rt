//! AUTH_DONE: the daemon's reply is opened, and AUTH_SIGNATURE is sent.

ghost use Rattle.std.specs.Prelude.{ℕ, [], take};
ghost use Rattle.cx_link.specs.Wires.{wired};
ghost use Rattle.cx_node.specs.cx_rules.specs.Payloads.{whole};
ghost use Rattle.cx_node.specs.cx_rules.specs.Secured.{connector_keys, signed_frame};
ghost use Rattle.cx_client_connect.specs.cx_rules_session.specs.Presenter.{CallStage, on_authorize_reply, on_done, signs, while_answered};
ghost use Rattle.cx_login.specs.cx_wire.specs.Logins.{authorize_reply_layout};
ghost use Rattle.cx_client_connect.specs.presenting.Rows.{Makes};
ghost use Rattle.cx_client_connect.specs.presenting.Stages.{awaiting_done};

use crate::Callee;
use crate::denials::{no_row, on_bad_method};
use crate::links::{Link, Stage};
use crate::making::unless_refused;
use crate::rows::Change;
use cx_authorize::{Agreed, Answering};
use cx_base::Items;
use cx_control::{AuthBadMethod, AuthDone};
use cx_frame::Frame;
use cx_holdings::MonClient;
use cx_journal::{BytesFault, LoginFault, Reason};
use cx_link::{PlainLink, tag};
use cx_node::{Moment, NoRow, NodeRow, due, goes_on_unchanged, payload_part};
use std::alloc::Global;

// A frame behind the second authorizer.
pub(crate) fn while_answered(
    alloc: Global,
    mon_client: &MonClient,
    at: &Moment<'_>,
    link: PlainLink,
    callee: Callee,
    answering: Answering,
    frame: &Frame,
) -> Result<NodeRow<Link, Change>, NoRow>
    ensures { Makes mon_client.now at.now (awaiting_done at.now.number link callee answering) (λ a. while_answered a callee answering frame.now) result }
{
    if frame.tag == tag::AUTH_BAD_METHOD {
        let read = payload_part::<AuthBadMethod>(alloc, frame)?;
        on_bad_method(mon_client, at, read)
    } else {
        let read = due::<AuthDone>(alloc, tag::AUTH_DONE, frame)?;
        on_done(alloc, mon_client, at, link, callee, answering, read)
    }
}

// The mode has to be 2, the secure one; what follows is an AuthorizeReply.
fn on_done(
    alloc: Global,
    mon_client: &MonClient,
    at: &Moment<'_>,
    link: PlainLink,
    callee: Callee,
    answering: Answering,
    read: Result<AuthDone, BytesFault>,
) -> Result<NodeRow<Link, Change>, NoRow>
    ensures { Makes mon_client.now at.now (awaiting_done at.now.number link callee answering) (λ a. on_done a callee answering read) result }
{
    let done = read?;
    if done.mode == 2 {
        on_reply(
            alloc,
            mon_client,
            at,
            link,
            callee,
            answering,
            done.payload.bytes(),
        )
    } else {
        Err(NoRow::Refused(Reason::Login(LoginFault::Mode)))
    }
}

// The reply of this payload has to be to one's own nonce; what opened is logged first.
fn on_reply(
    alloc: Global,
    mon_client: &MonClient,
    at: &Moment<'_>,
    link: PlainLink,
    callee: Callee,
    answering: Answering,
    payload: &[u8],
) -> Result<NodeRow<Link, Change>, NoRow>
    ensures { Makes mon_client.now at.now (awaiting_done at.now.number link callee answering)
        (λ a. on_authorize_reply a callee answering (whole authorize_reply_layout.form payload.now)) result }
{
    let mut opened = Items::new(alloc);
    match answering.done(alloc, payload, &mut opened) {
        Ok(agreed) => {
            let made = signs(alloc, mon_client, at, link, callee, agreed);
            let row = unless_refused(alloc, mon_client, at, opened, made)?;
            Ok(row)
        }
        Err(why) => {
            let row = unless_refused(alloc, mon_client, at, opened, Err(no_row(why)))?;
            Ok(row)
        }
    }
}

// AUTH_SIGNATURE is sent; the daemon's has to cover all that was sent before.
fn signs(
    alloc: Global,
    mon_client: &MonClient,
    at: &Moment<'_>,
    link: PlainLink,
    callee: Callee,
    agreed: Agreed,
) -> Result<NodeRow<Link, Change>, NoRow>
    ensures { (stage : CallStage) (nonce : ℕ) → Makes mon_client.now at.now (wired at.now.number link stage)
        (λ a. signs a callee (record { session = agreed.session; nonce = nonce }) [] (signed_frame (connector_keys agreed.secret) agreed.session (take link.taken link.received))) result }
{
    let finished = link.sign(alloc, &agreed.session, &agreed.secret)?;
    let link = Link::new(
        alloc,
        at.number,
        Stage::AwaitsSignature(finished.signing, callee),
    )?;
    Ok(goes_on_unchanged(alloc, link, finished.bytes, finished.seals))
}

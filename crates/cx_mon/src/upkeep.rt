//! Frames on an open link: keepalives, and messages.

ghost use Rattle.std.specs.Prelude.{◌≡◌, ◌<◌, []};
ghost use Rattle.cx_node.specs.steps.Stages.{keys_alone};
ghost use Rattle.cx_node.specs.steps.Upkeep.{upkept};
ghost use Rattle.cx_rules.specs.Acceptor.{Open};
ghost use Rattle.cx_rules.specs.MonitorRequests.{on_open};
ghost use Rattle.cx_rules.specs.Rows.{secure_sent};
ghost use Rattle.cx_mon.specs.acceptor.Rows.{Makes};
ghost use Rattle.cx_mon.specs.acceptor.Stages.{open_link};

use crate::links::{Link, Stage};
use crate::messages::on_message;
use crate::own::{KeyChange, Own};
use cx_frame::Frame;
use cx_link::SecureLink;
use cx_node::{Moment, NoRow, NodeRow, goes_on_unchanged, is_keepalive, upkept};
use cx_rules::Bearer;
use std::alloc::Global;

// A keepalive is answered as on any link; any other frame has to hold a message.
pub(crate) fn on_open(
    alloc: Global,
    own: &mut Own,
    at: &Moment<'_>,
    link: SecureLink,
    bearer: Bearer,
    frame: &Frame,
) -> Result<NodeRow<Link, KeyChange>, NoRow>
    requires { at.now.reading < 4000000000000000000 }
    ensures row { Makes own.old at.now (open_link at.now.number link bearer) (λ a. on_open Open a (keys_alone link.keys) bearer frame.now) result }
    ensures same { own.new ≡ own.old }
{
    if is_keepalive(frame) {
        stays_open(alloc, own, at, link, bearer, frame)
    } else {
        on_message(alloc, own, at, link, bearer, frame)
    }
}

// What is sent behind the frame is sent, and the link stays open.
fn stays_open(
    alloc: Global,
    own: &Own,
    at: &Moment<'_>,
    link: SecureLink,
    bearer: Bearer,
    frame: &Frame,
) -> Result<NodeRow<Link, KeyChange>, NoRow>
    ensures { Makes own.now at.now (open_link at.now.number link bearer)
        (λ a. secure_sent a (keys_alone link.keys) (λ behind. Open behind bearer) [] (upkept link.keys frame.now)) result }
{
    let sent = upkept(alloc, link, frame)??;
    let link = Link::new(alloc, at.number, Stage::Open(sent.link, bearer))?;
    Ok(goes_on_unchanged(alloc, link, sent.bytes, sent.seals))
}

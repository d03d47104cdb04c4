//! A turn of an open link, up to what the book is asked.

ghost use Rattle.std.specs.Prelude.{◌≡◌, [], List, IfOk};
ghost use Rattle.cx_desk.specs.Handlers.{Handlers};
ghost use Rattle.cx_node.specs.cx_rules.specs.Acceptor.{Open};
ghost use Rattle.cx_node.specs.cx_rules.specs.Rows.{secure_sent};
ghost use Rattle.cx_daemon_session.specs.cx_rules_session.specs.Hosting.{instruction_of, on_message, on_open};
ghost use Rattle.cx_node.specs.cx_rules.specs.Messages.{message_in};
ghost use Rattle.cx_node.specs.steps.Stages.{keys_alone};
ghost use Rattle.cx_node.specs.steps.Upkeep.{upkept};
ghost use Rattle.cx_daemon_session.specs.cx_verifying.specs.Rows.{Makes};
ghost use Rattle.cx_daemon_session.specs.cx_verifying.specs.Stages.{IncomingLink, open_link};
ghost use Rattle.cx_daemon_session.specs.messages.Pending.{IsBegun, IsDecided, StaysOn, open_arrival};

use crate::instructions::instruction_in;
use crate::messages_pending::{Checking, OpenTurn};
use crate::{Link, Served, Stage, come};
use cx_base::Items;
use cx_frame::Frame;
use cx_holdings::MonClient;
use cx_link::{LinkTurn, SecureLink};
use cx_node::{Came, Moment, NoRow, NodeRow, goes_on_unchanged, is_keepalive, upkept};
use cx_steps::SealEntry;
use std::alloc::{AllocError, Global};

/// What stands next on an open incoming link. Nothing of what the daemon has is changed, and no handler is called.
pub fn open_turn(
    alloc: Global,
    mon_client: &MonClient,
    at: &Moment<'_>,
    link: SecureLink,
    served: Served,
) -> Result<OpenTurn, AllocError>
    ensures begun { (handlers : Handlers) → IfOk result (IsBegun handlers mon_client.now at.now (open_link at.now.number link served)) }
    ensures stays { IfOk result (StaysOn (open_link at.now.number link served)) }
{
    let mut opened = Items::new(alloc);
    match link.turn(alloc, &mut opened)? {
        LinkTurn::Waits(link) => {
            let link = Link::new(alloc, at.number, Stage::Open(link, served))?;
            Ok(OpenTurn::Done(Came::Waits(link)))
        }
        LinkTurn::Refuses(why) => Ok(OpenTurn::Done(Came::Refuses(why, opened))),
        LinkTurn::Takes(link, frame) => on_open(
            alloc, mon_client, at, link, served, opened, &frame,
        ),
    }
}

// A keepalive is answered as on any link; any other frame has to hold a message.
fn on_open(
    alloc: Global,
    mon_client: &MonClient,
    at: &Moment<'_>,
    link: SecureLink,
    served: Served,
    opened: Items<SealEntry>,
    frame: &Frame,
) -> Result<OpenTurn, AllocError>
    ensures begun { (handlers : Handlers) → IfOk result (IsDecided handlers mon_client.now at.now opened
        (on_open handlers (open_arrival mon_client.now at.now link served) (keys_alone link.keys) served frame.now)) }
    ensures stays { (old : IncomingLink) → old.number ≡ at.now.number → IfOk result (StaysOn old) }
{
    if is_keepalive(frame) {
        let made = stays_open(alloc, mon_client, at, link, served, frame);
        let came = come(alloc, mon_client, at, opened, made)?;
        Ok(OpenTurn::Done(came))
    } else {
        on_message(alloc, mon_client, at, link, served, opened, frame)
    }
}

// What is sent behind the frame is sent, and the link stays open.
fn stays_open(
    alloc: Global,
    mon_client: &MonClient,
    at: &Moment<'_>,
    link: SecureLink,
    served: Served,
    frame: &Frame,
) -> Result<NodeRow<Link, ()>, NoRow>
    ensures { Makes mon_client.now at.now (open_link at.now.number link served)
        (λ a. secure_sent a (keys_alone link.keys) (λ behind. Open behind served) [] (upkept link.keys frame.now)) result }
{
    let sent = upkept(alloc, link, frame)??;
    let link = Link::new(alloc, at.number, Stage::Open(sent.link, served))?;
    Ok(goes_on_unchanged(alloc, link, sent.bytes, sent.seals))
}

// A message has to bring an operation, which waits for the book.
fn on_message(
    alloc: Global,
    mon_client: &MonClient,
    at: &Moment<'_>,
    link: SecureLink,
    served: Served,
    opened: Items<SealEntry>,
    frame: &Frame,
) -> Result<OpenTurn, AllocError>
    ensures begun { (handlers : Handlers) → IfOk result (IsDecided handlers mon_client.now at.now opened
        (on_message handlers (open_arrival mon_client.now at.now link served) (keys_alone link.keys) served (instruction_of (message_in frame.now)))) }
    ensures stays { (old : IncomingLink) → old.number ≡ at.now.number → IfOk result (StaysOn old) }
{
    match instruction_in(alloc, frame)? {
        Ok(instruction) => Ok(OpenTurn::Checks(Checking {
            link,
            served,
            instruction,
            opened,
        })),
        Err(why) => {
            let came = come(alloc, mon_client, at, opened, Err(NoRow::from(why)))?;
            Ok(OpenTurn::Done(came))
        }
    }
}

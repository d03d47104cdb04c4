//! Frames on an open link: KEEPALIVE2, KEEPALIVE2_ACK, and replies to what was asked for.

ghost use Rattle.std.specs.Prelude.{◌≡◌, [], ◌∷◌, IfOk};
ghost use Rattle.cx_node.specs.steps.Stages.{keys_alone};
ghost use Rattle.cx_node.specs.steps.Upkeep.{upkept};
ghost use Rattle.cx_node.specs.Made.{going_on};
ghost use Rattle.cx_node.specs.cx_rules.specs.Connector.{Open};
ghost use Rattle.cx_node.specs.cx_rules.specs.Requests.{behind_reply, fetched_entry, on_open, on_reply, takes};
ghost use Rattle.cx_node.specs.cx_rules.specs.Rows.{secure_sent};
ghost use Rattle.cx_monclient.specs.connector.Rows.{Makes};
ghost use Rattle.cx_monclient.specs.connector.Stages.{open_link};

use crate::links::{Link, Stage};
use crate::making::{changing, named};
use crate::rows::{BoxedChange, Change};
use crate::{Requests, Taken, take_reply};
use cx_base::{Blob, Duplicate, Items};
use cx_frame::Frame;
use cx_holdings::{MonClient, Renewed};
use cx_journal::{Entry, Fetched};
use cx_link::SecureLink;
use cx_node::{Moment, NoRow, NodeRow, Row, goes_on_unchanged, is_keepalive, refuses, upkept};
use cx_rotate::{Generations, View};
use cx_steps::SealEntry;
use std::alloc::{AllocError, Global};

// A keepalive is answered as ever; any other frame has to be a reply.
pub(crate) fn on_open(
    alloc: Global,
    mon_client: &MonClient,
    at: &Moment<'_>,
    link: SecureLink,
    requests: Requests,
    frame: &Frame,
) -> Result<NodeRow<Link, BoxedChange>, NoRow>
    ensures { Makes mon_client.now at.now (open_link at.now.number link requests) (λ a. on_open Open a (keys_alone link.keys) requests frame.now) result }
{
    if is_keepalive(frame) {
        stays_open(alloc, mon_client, at, link, requests, frame)
    } else {
        on_reply(alloc, mon_client, at, link, requests, frame)
    }
}

// What is sent behind a keepalive is sent, and the link stays open.
fn stays_open(
    alloc: Global,
    mon_client: &MonClient,
    at: &Moment<'_>,
    link: SecureLink,
    requests: Requests,
    frame: &Frame,
) -> Result<NodeRow<Link, BoxedChange>, NoRow>
    ensures { Makes mon_client.now at.now (open_link at.now.number link requests)
        (λ a. secure_sent a (keys_alone link.keys) (λ behind. Open behind requests) [] (upkept link.keys frame.now)) result }
{
    let sent = upkept(alloc, link, frame)??;
    let link = Link::new(alloc, at.number, Stage::Open(sent.link, requests))?;
    Ok(goes_on_unchanged(alloc, link, sent.bytes, sent.seals))
}

// What comes of the reply is taken.
fn on_reply(
    alloc: Global,
    mon_client: &MonClient,
    at: &Moment<'_>,
    link: SecureLink,
    requests: Requests,
    frame: &Frame,
) -> Result<NodeRow<Link, BoxedChange>, NoRow>
    ensures { Makes mon_client.now at.now (open_link at.now.number link requests) (λ a. on_reply Open a (keys_alone link.keys) requests frame.now) result }
{
    let taken = take_reply(alloc, &mon_client.secret(), &requests, frame)?;
    let row = takes(alloc, mon_client, at, link, requests, taken)?;
    Ok(row)
}

// Tickets are held, or generations become the view; or the link is refused, and what opened is logged.
fn takes(
    alloc: Global,
    mon_client: &MonClient,
    at: &Moment<'_>,
    link: SecureLink,
    requests: Requests,
    taken: Taken,
) -> Result<NodeRow<Link, BoxedChange>, AllocError>
    ensures { IfOk result (λ row. Makes mon_client.now at.now (open_link at.now.number link requests) (λ a. takes Open a (keys_alone link.keys) requests taken) (Ok row)) }
{
    match taken {
        Taken::Refuses { why, opened } => {
            let me = named(alloc, mon_client)?;
            let row = refuses(alloc, &me, at.number, why, opened)?;
            Ok(NodeRow::keeping(row))
        }
        Taken::Holds { held, opened } => {
            let renewed = Renewed::new(alloc, &held)?;
            let row = answered(alloc, at, link, requests, opened)?;
            changing(alloc, row, Change::Renews(renewed))
        }
        Taken::Views {
            asked,
            generations,
            opened,
        } => {
            let mut row = answered(alloc, at, link, requests, opened)?;
            row.entries = fetched(alloc, mon_client, asked, generations)?;
            let view = View {
                generations,
                asked: Some(asked),
            };
            changing(alloc, row, Change::Views(view))
        }
    }
}

// The request that waited longest doesn't wait any more, and the link stays open.
fn answered(
    alloc: Global,
    at: &Moment<'_>,
    link: SecureLink,
    requests: Requests,
    opened: Items<SealEntry>,
) -> Result<Row<Link>, AllocError>
    ensures { IfOk result (λ row. row ≡ going_on (open_link at.now.number link (behind_reply requests)) [] opened) }
{
    let mut requests = requests;
    requests.answered();
    let link = Link::new(alloc, at.number, Stage::Open(link, requests))?;
    Ok(cx_node::goes_on(alloc, link, Blob::new(alloc), opened))
}

// That generations were fetched, for which this entity had asked at this reading.
fn fetched(
    alloc: Global,
    mon_client: &MonClient,
    asked: u64,
    generations: Generations,
) -> Result<Items<Entry>, AllocError>
    ensures { IfOk result (λ entries. entries ≡ fetched_entry mon_client.now.name asked generations ∷ []) }
{
    let daemon = mon_client.name().copy(alloc)?;
    let mut entries = Items::new(alloc);
    entries.push(
        alloc,
        Entry::Fetched(Fetched {
            daemon,
            asked,
            generations,
        }),
    )?;
    Ok(entries)
}

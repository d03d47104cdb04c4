//! A message, by the replies of the book: whether it is the next one, and that it is taken.

ghost use Rattle.std.specs.Prelude.{◌≡◌, [], IfOk};
ghost use Rattle.cx_desk.specs.Handlers.{Handlers};
ghost use Rattle.cx_desk.specs.Held.{handlers_of};
ghost use Rattle.cx_node.specs.cx_rules.specs.Acceptor.{Open};
ghost use Rattle.cx_node.specs.cx_rules.specs.Messages.{acknowledgement};
ghost use Rattle.cx_node.specs.cx_rules.specs.Rows.{sends_secure};
ghost use Rattle.cx_daemon_session.specs.cx_rules_session.specs.Hosting.{on_taken, on_untaken};
ghost use Rattle.cx_session.specs.declared.call.BookReply.TheVariants as reply;
ghost use Rattle.cx_node.specs.steps.Stages.{keys_alone};
ghost use Rattle.cx_daemon_session.specs.cx_verifying.specs.Rows.{Makes};
ghost use Rattle.cx_daemon_session.specs.cx_verifying.specs.Stages.{open_link};
ghost use Rattle.cx_daemon_session.specs.coming.Hosted.{IsCome};
ghost use Rattle.cx_daemon_session.specs.messages.Pending.{IsChecked, open_arrival};

use crate::handling::handled;
use crate::messages_pending::{CheckedTurn, Checking, Taking};
use crate::{Link, Served, Stage, come};
use cx_base::Items;
use cx_desk::Desk;
use cx_holdings::MonClient;
use cx_journal::{Reason, SessionFault};
use cx_link::SecureLink;
use cx_node::{Came, Moment, NoRow, NodeRow, goes_on_unchanged, send_acknowledgement};
use cx_session::{BookFault, BookReply};
use cx_steps::SealEntry;
use std::alloc::{AllocError, Global};

/// What a message comes to by the book's reply to `Check`: the next one is to be taken; one that was taken before is acknowledged again, and for any
/// other the link is refused. A reply that no book gives to this call is answered as want of memory.
pub fn checked(
    alloc: Global,
    mon_client: &MonClient,
    at: &Moment<'_>,
    checking: Checking,
    reply: &BookReply,
) -> Result<CheckedTurn, AllocError>
    ensures { (handlers : Handlers) → IfOk result (IsChecked handlers mon_client.now at.now checking reply.now) }
{
    let Checking {
        link,
        served,
        instruction,
        opened,
    } = checking;
    match reply {
        BookReply::Fine => Ok(CheckedTurn::Takes(Taking {
            link,
            served,
            instruction,
            opened,
        })),
        BookReply::Refused(fault) => {
            let came = untaken(alloc, mon_client, at, link, served, opened, fault)?;
            Ok(CheckedTurn::Done(came))
        }
        BookReply::Admitted { .. } => Err(AllocError),
        BookReply::Resumed { .. } => Err(AllocError),
        BookReply::Ended(_) => Err(AllocError),
        BookReply::OutOfMemory => Err(AllocError),
    }
}

/// What the next message comes to by the book's reply to `Take`: its operation is denied, or handled by its handler, which is called once and here
/// alone; it is entered, answered and acknowledged. A message that the book doesn't take goes on as behind `Check`: nothing is handled.
pub fn took(
    alloc: Global,
    mon_client: &MonClient,
    at: &Moment<'_>,
    desk: &Desk,
    taking: Taking,
    reply: &BookReply,
) -> Result<Came<Link, ()>, AllocError>
    ensures { IfOk result (IsCome mon_client.now at.now.number taking.opened
        (on_taken (handlers_of desk.now) (open_arrival mon_client.now at.now taking.link taking.served) (keys_alone taking.link.keys) taking.served taking.instruction reply.now)) }
{
    let Taking {
        link,
        served,
        instruction,
        opened,
    } = taking;
    match reply {
        BookReply::Fine => handled(
            alloc,
            mon_client,
            at,
            desk,
            link,
            served,
            instruction,
            opened,
        ),
        BookReply::Refused(fault) => untaken(alloc, mon_client, at, link, served, opened, fault),
        BookReply::Admitted { .. } => Err(AllocError),
        BookReply::Resumed { .. } => Err(AllocError),
        BookReply::Ended(_) => Err(AllocError),
        BookReply::OutOfMemory => Err(AllocError),
    }
}

// A message that isn't the next one of its session.
fn untaken(
    alloc: Global,
    mon_client: &MonClient,
    at: &Moment<'_>,
    link: SecureLink,
    served: Served,
    opened: Items<SealEntry>,
    fault: &BookFault,
) -> Result<Came<Link, ()>, AllocError>
    ensures { IfOk result (IsCome mon_client.now at.now.number opened
        (on_untaken (open_arrival mon_client.now at.now link served) (keys_alone link.keys) served (reply.Refused fault.now))) }
{
    match fault {
        BookFault::Repeat { last } => {
            let made = acknowledges(alloc, mon_client, at, link, served, *last);
            come(alloc, mon_client, at, opened, made)
        }
        BookFault::Gap { expected } => {
            let why = SessionFault::Gap(*expected);
            let made = Err(NoRow::Refused(Reason::Session(why)));
            come(alloc, mon_client, at, opened, made)
        }
        BookFault::Stale { epoch } => {
            let why = SessionFault::Stale(*epoch);
            let made = Err(NoRow::Refused(Reason::Session(why)));
            come(alloc, mon_client, at, opened, made)
        }
        BookFault::CookieInUse { .. } => Err(AllocError),
        BookFault::BookFull { .. } => Err(AllocError),
        BookFault::Spent => Err(AllocError),
        BookFault::Unknown => Err(AllocError),
        BookFault::OwnerDiffers { .. } => Err(AllocError),
        BookFault::StaleConnect { .. } => Err(AllocError),
        BookFault::StaleGlobal { .. } => Err(AllocError),
    }
}

// ACK of the last message that was taken, and nothing is entered.
fn acknowledges(
    alloc: Global,
    mon_client: &MonClient,
    at: &Moment<'_>,
    link: SecureLink,
    served: Served,
    last: u64,
) -> Result<NodeRow<Link, ()>, NoRow>
    ensures { Makes mon_client.now at.now (open_link at.now.number link served)
        (λ a. sends_secure a (keys_alone link.keys) (λ behind. Open behind served) [] (acknowledgement last)) result }
{
    let sent = send_acknowledgement(alloc, link, last)??;
    let link = Link::new(alloc, at.number, Stage::Open(sent.link, served))?;
    Ok(goes_on_unchanged(alloc, link, sent.bytes, sent.seals))
}

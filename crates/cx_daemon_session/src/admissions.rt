//! A CLIENT_IDENT, by the book's reply.

ghost use Rattle.std.specs.Prelude.{◌≡◌, [], ◌∷◌, None, IfOk};
ghost use Rattle.cx_daemon_session.specs.cx_authorize.specs.Daemon.{Authority};
ghost use Rattle.cx_dice.specs.Draws.{cookie_of};
ghost use Rattle.cx_node.specs.cx_rules.specs.Acceptor.{Open, server_ident};
ghost use Rattle.cx_node.specs.cx_rules.specs.Rows.{refuses, sends_secure};
ghost use Rattle.cx_daemon_session.specs.cx_rules_session.specs.Hosting.{admits, comes_to, cookie_drawn, on_admission};
ghost use Rattle.cx_node.specs.cx_rules.specs.Holdings.{MonClient};
ghost use Rattle.cx_daemon_session.specs.cx_rules_session.specs.Lossy.{lossy_flags};
ghost use Rattle.cx_session.specs.declared.call.BookReply.TheVariants as reply;
ghost use Rattle.cx_node.specs.steps.Stages.{keys_alone};
ghost use Rattle.cx_node.specs.steps.Turns.{HasNumber};
ghost use Rattle.cx_daemon_session.specs.cx_verifying.specs.Rows.{Makes, arrived};
ghost use Rattle.cx_daemon_session.specs.cx_verifying.specs.Stages.{IncomingLink, awaiting_ident};
ghost use Rattle.cx_daemon_session.specs.coming.Hosted.{IsCome, done_as};
ghost use Rattle.cx_daemon_session.specs.idents.Pending.{behind_admission, ident_arrival};

use crate::entries::{admission_of, is_lossy, lossy_flags, served_as};
use crate::idents_pending::{AdmittedTurn, Admitting};
use crate::{Link, Served, SessionOwner, Stage, come, entered};
use cx_base::Items;
use cx_control::{ClientIdent, ServerIdent};
use cx_holdings::MonClient;
use cx_journal::{Entry, Reason, SessionFault};
use cx_link::{SecureLink, tag};
use cx_node::{
    Came, Moment, NoRow, NodeRow, goes_on_unchanged, refuses, send_secure, unless_refused,
};
use cx_session::{BookCall, BookFault, BookReply};
use cx_steps::{DrawMark, SealEntry};
use std::alloc::{AllocError, Global};

/// What a CLIENT_IDENT comes to by the book's reply to `Admit`: the session is entered, SERVER_IDENT is sent with the drawn cookie, and the link is
/// open; or it is refused for the book's fault. The call goes back, to be applied last. A reply that no book gives to it is answered as want of memory.
pub fn admitted(
    alloc: Global,
    mon_client: &MonClient,
    at: &Moment<'_>,
    admitting: Admitting,
    reply: &BookReply,
) -> Result<AdmittedTurn, AllocError>
    ensures made { IfOk result (λ turn. done_as mon_client.now turn.came None ≡ behind_admission mon_client.now at.now admitting reply.now) }
    ensures number { IfOk result (λ turn. HasNumber (λ (l : IncomingLink). l.number) at.now.number turn.came) }
    ensures call { IfOk result (λ turn. turn.call ≡ admitting.call) }
{
    let Admitting {
        link,
        ident,
        opened,
        call,
    } = admitting;
    match &call {
        BookCall::Admit { owner, .. } => {
            let came = by_reply(alloc, mon_client, at, link, owner, &ident, opened, reply)?;
            Ok(AdmittedTurn { came, call })
        }
        BookCall::Resume { .. } => Err(AllocError),
        BookCall::Check { .. } => Err(AllocError),
        BookCall::Take { .. } => Err(AllocError),
        BookCall::End { .. } => Err(AllocError),
    }
}

fn by_reply(
    alloc: Global,
    mon_client: &MonClient,
    at: &Moment<'_>,
    link: SecureLink,
    owner: &SessionOwner,
    ident: &ClientIdent,
    opened: Items<SealEntry>,
    reply: &BookReply,
) -> Result<Came<Link, ()>, AllocError>
    ensures { IfOk result (IsCome mon_client.now at.now.number opened
        (on_admission (ident_arrival mon_client.now at.now link owner.now) (keys_alone link.keys) owner.now ident.now reply.now)) }
{
    match reply {
        BookReply::Admitted { number, epoch } => {
            let made = admits(alloc, mon_client, at, link, owner, ident, *number, *epoch);
            come(alloc, mon_client, at, opened, made)
        }
        BookReply::Refused(fault) => refused(
            alloc, mon_client, at, link, owner, ident, opened, fault,
        ),
        BookReply::Resumed { .. } => Err(AllocError),
        BookReply::Fine => Err(AllocError),
        BookReply::Ended(_) => Err(AllocError),
        BookReply::OutOfMemory => Err(AllocError),
    }
}

// A session that was admitted is entered, SERVER_IDENT is sent with the drawn cookie, and the link is open.
fn admits(
    alloc: Global,
    mon_client: &MonClient,
    at: &Moment<'_>,
    link: SecureLink,
    owner: &SessionOwner,
    ident: &ClientIdent,
    number: u64,
    epoch: u64,
) -> Result<NodeRow<Link, ()>, NoRow>
    ensures { Makes mon_client.now at.now (awaiting_ident at.now.number link owner.now) (λ a. admits a (keys_alone link.keys) owner.now ident.now number epoch) result }
{
    let told = admission_of(alloc, mon_client, at, owner, number, epoch, ident.cookie)?;
    let lossy = is_lossy(ident.flags);
    let served = served_as(alloc, owner, number, epoch, ident.cookie, lossy)?;
    let made = opens(alloc, mon_client, at, link, served);
    entered(alloc, mon_client, at, Entry::Admitted(told), made)
}

// SERVER_IDENT, behind the entry that its cookie was drawn.
fn opens(
    alloc: Global,
    mon_client: &MonClient,
    at: &Moment<'_>,
    link: SecureLink,
    served: Served,
) -> Result<NodeRow<Link, ()>, NoRow>
    ensures { (owner : Authority) → Makes mon_client.now at.now (awaiting_ident at.now.number link owner)
        (λ a. sends_secure a (keys_alone link.keys) (λ behind. Open behind served) (cookie_drawn a ∷ []) (server_ident a.own.address (lossy_flags served.lossy) (cookie_of a.draw))) result }
{
    let made = sends_ident(alloc, mon_client, at, link, served);
    let me = mon_client.node_name(alloc)?;
    let drawn = cookie_drawn(alloc, at)?;
    let row = unless_refused(alloc, &me, at.number, drawn, made)?;
    Ok(row)
}

fn cookie_drawn(alloc: Global, at: &Moment<'_>) -> Result<Items<SealEntry>, AllocError>
    ensures { (mon_client : MonClient) (link : IncomingLink) → IfOk result (λ drawn. drawn ≡ cookie_drawn (arrived mon_client at.now link) ∷ []) }
{
    let mut drawn = Items::new(alloc);
    drawn.push(alloc, SealEntry::Drawn(DrawMark::Cookie(at.draw.cookie())))?;
    Ok(drawn)
}

fn sends_ident(
    alloc: Global,
    mon_client: &MonClient,
    at: &Moment<'_>,
    link: SecureLink,
    served: Served,
) -> Result<NodeRow<Link, ()>, NoRow>
    ensures { (owner : Authority) → Makes mon_client.now at.now (awaiting_ident at.now.number link owner)
        (λ a. sends_secure a (keys_alone link.keys) (λ behind. Open behind served) [] (server_ident a.own.address (lossy_flags served.lossy) (cookie_of a.draw))) result }
{
    let ident = ServerIdent {
        addr: mon_client.address(),
        gid: 0,
        global_seq: 0,
        supported: 0,
        required: 0,
        flags: lossy_flags(served.lossy),
        cookie: at.draw.cookie(),
    };
    let sent = send_secure(alloc, link, tag::SERVER_IDENT, &ident)??;
    let link = Link::new(alloc, at.number, Stage::Open(sent.link, served))?;
    Ok(goes_on_unchanged(alloc, link, sent.bytes, sent.seals))
}

// The book refuses the session.
fn refused(
    alloc: Global,
    mon_client: &MonClient,
    at: &Moment<'_>,
    link: SecureLink,
    owner: &SessionOwner,
    ident: &ClientIdent,
    opened: Items<SealEntry>,
    fault: &BookFault,
) -> Result<Came<Link, ()>, AllocError>
    ensures { IfOk result (IsCome mon_client.now at.now.number opened
        (on_admission (ident_arrival mon_client.now at.now link owner.now) (keys_alone link.keys) owner.now ident.now (reply.Refused fault.now))) }
{
    match fault {
        BookFault::CookieInUse { number } => {
            let why = Reason::Session(SessionFault::CookieInUse(*number));
            refuses_admission(alloc, mon_client, at, opened, why)
        }
        BookFault::BookFull { .. } => {
            let why = Reason::Session(SessionFault::BookFull);
            refuses_admission(alloc, mon_client, at, opened, why)
        }
        BookFault::Spent => refuses_admission(alloc, mon_client, at, opened, Reason::Spent),
        BookFault::Unknown => Err(AllocError),
        BookFault::OwnerDiffers { .. } => Err(AllocError),
        BookFault::StaleConnect { .. } => Err(AllocError),
        BookFault::StaleGlobal { .. } => Err(AllocError),
        BookFault::Stale { .. } => Err(AllocError),
        BookFault::Repeat { .. } => Err(AllocError),
        BookFault::Gap { .. } => Err(AllocError),
    }
}

// The link is shut, behind the entry that a cookie was drawn.
fn refuses_admission(
    alloc: Global,
    mon_client: &MonClient,
    at: &Moment<'_>,
    opened: Items<SealEntry>,
    why: Reason,
) -> Result<Came<Link, ()>, AllocError>
    ensures { (link : IncomingLink) → link.number ≡ at.now.number → IfOk result (IsCome mon_client.now at.now.number opened
        (comes_to (refuses (arrived mon_client.now at.now link) why (cookie_drawn (arrived mon_client.now at.now link) ∷ [])))) }
{
    let me = mon_client.node_name(alloc)?;
    let drawn = cookie_drawn(alloc, at)?;
    let row = refuses(alloc, &me, at.number, why, drawn)?;
    come(alloc, mon_client, at, opened, Ok(NodeRow::keeping(row)))
}

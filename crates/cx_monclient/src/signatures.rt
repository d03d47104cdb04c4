//! AUTH_SIGNATURE.

ghost use Rattle.std.specs.Prelude.{◌≡◌, [], ◌∷◌, ◌++◌, Some, IfOk};
ghost use Rattle.cx_link.specs.Sending.{secured_of};
ghost use Rattle.cx_link.specs.Wires.{secured_link};
ghost use Rattle.cx_node.specs.cx_rules.specs.Connector as connector;
ghost use Rattle.cx_node.specs.cx_rules.specs.Connector.{on_signature};
ghost use Rattle.cx_monclient.specs.connector.Rows.{Makes, identified};
ghost use Rattle.cx_monclient.specs.connector.Stages.{awaiting_ident, awaiting_signature};
ghost use Rattle.cx_monclient.specs.declared.rows.Change.TheVariants.{Holds};
ghost use Rattle.cx_node.specs.Made.{going_on};
ghost use Rattle.cx_steps.specs.declared.seals.DrawMark.TheVariants.{Cookie};
ghost use Rattle.cx_steps.specs.declared.seals.SealEntry.TheVariants.{Drawn};

use crate::links::{Link, Stage};
use crate::making::{changing, named};
use crate::rows::{BoxedChange, Change};
use cx_base::Items;
use cx_control::AuthSignature;
use cx_holdings::{Login, MonClient};
use cx_journal::BytesFault;
use cx_link::{Checked, SentFrame, Signing};
use cx_node::{Moment, NoRow, NodeRow, checked, goes_on, refuses_bytes, send_secure};
use cx_steps::{DrawMark, SealEntry};
use std::alloc::{AllocError, Global};

// The peer's signature has to cover all that was sent before one's own.
pub(crate) fn on_signature(
    alloc: Global,
    mon_client: &MonClient,
    at: &Moment<'_>,
    signing: Signing,
    login: Login,
    read: Result<AuthSignature, BytesFault>,
) -> Result<NodeRow<Link, BoxedChange>, NoRow>
    ensures { Makes mon_client.now at.now (awaiting_signature at.now.number signing login) (λ a. on_signature a (secured_of signing) login read) result }
{
    let found = checked(signing, read)?;
    identifies(alloc, mon_client, at, found, login)
}

// The login is held, also where CLIENT_IDENT can't be sent, which has a drawn cookie.
fn identifies(
    alloc: Global,
    mon_client: &MonClient,
    at: &Moment<'_>,
    checked: Checked,
    login: Login,
) -> Result<NodeRow<Link, BoxedChange>, NoRow>
    ensures { (stage : connector.Stage) → Makes mon_client.now at.now (secured_link at.now.number checked.link.ahead stage) (λ a. identified a checked.link.keys checked.entry login) result }
{
    let Checked { link, entry } = checked;
    let cookie = at.draw.cookie();
    let seals = found_right(alloc, entry, cookie)?;
    match send_secure(
        alloc,
        link,
        8,
        &mon_client.client_ident(login.gid(), 1, cookie),
    )? {
        Ok(sent) => Ok(awaits_ident(alloc, at, sent, login, seals)?),
        Err(why) => {
            let me = named(alloc, mon_client)?;
            let row = refuses_bytes(alloc, &me, at.number, why, seals)?;
            Ok(changing(alloc, row, Change::Holds(login))?)
        }
    }
}

// What is logged before CLIENT_IDENT: that the signature was found right, and the cookie that was drawn.
fn found_right(alloc: Global, found: SealEntry, cookie: u64) -> Result<Items<SealEntry>, AllocError>
    ensures { IfOk result (λ seals. seals ≡ found ∷ Drawn (Cookie cookie) ∷ []) }
{
    let mut seals = Items::new(alloc);
    seals.push(alloc, found)?;
    seals.push(alloc, SealEntry::Drawn(DrawMark::Cookie(cookie)))?;
    Ok(seals)
}

// CLIENT_IDENT was sent, and is logged behind these entries.
fn awaits_ident(
    alloc: Global,
    at: &Moment<'_>,
    sent: SentFrame,
    login: Login,
    before: Items<SealEntry>,
) -> Result<NodeRow<Link, BoxedChange>, AllocError>
    ensures { IfOk result (λ made. made ≡ record { row = going_on (awaiting_ident at.now.number sent.link login.opened.auth.session) sent.bytes (before ++ sent.seals); change = Some (Holds login) }) }
{
    let mut seals = before;
    seals.append(alloc, sent.seals)?;
    let link = Link::new(
        alloc,
        at.number,
        Stage::AwaitsIdent(sent.link, login.session()),
    )?;
    let row = goes_on(alloc, link, sent.bytes, seals);
    changing(alloc, row, Change::Holds(login))
}

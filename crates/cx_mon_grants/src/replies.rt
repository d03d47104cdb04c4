//! What the monitor replies to a request.

ghost use Rattle.std.specs.Prelude.{◌≡◌, [], ◌∷◌, map, IfOk};
ghost use Rattle.std.specs.List.{flat_map};
ghost use Rattle.cx_cbc.specs.Envelope.{sealed};
ghost use Rattle.cx_rules.specs.KeptStates.{changed};
ghost use Rattle.cx_rules.specs.Replies.{reply_made, told_content, told_seal};
ghost use Rattle.cx_rules.specs.Tickets.{ticket_part, ticket_seals};
ghost use Rattle.cx_sealed.specs.Records.{AreReadings};
ghost use Rattle.cx_wire.specs.declared.bodies.Reply.TheVariants.{Tickets, Rotating};
ghost use Rattle.cx_mon_grants.specs.Handing.{CanBeTold};
ghost use Rattle.cx_mon_grants.specs.Telling.{IsBodyShort};

use crate::entries::login_entries;
use crate::logging::logged_parts;
use crate::occasions::{Entrant, Occasion};
use crate::payloads::reply_body;
use crate::saving::changed;
use cx_base::{EntityType, Items};
use cx_enc::write_whole;
use cx_journal::KeyKind;
use cx_keyserver::{Issuance, KeyServer};
use cx_rotate::{Generations, KeptState};
use cx_rules::ReplyMade;
use cx_sealed::{RotatingReply, seal_rotating_reply};
use cx_steps::{SealEntry, SealMark};
use cx_wire::Reply;
use std::alloc::{AllocError, Global};

/// The entity is told these tickets under the session key of its ticket for AUTH.
pub(crate) fn tells_tickets(
    alloc: Global,
    server: &KeyServer,
    entrant: &Entrant<'_>,
    own: &[u8; 16],
    tickets: Items<Issuance>,
    drawn: Items<SealEntry>,
) -> Result<ReplyMade, AllocError>
    requires { CanBeTold tickets }
    ensures made { IfOk result (λ made. made ≡ reply_made (changed entrant.now.at.saved.now server.now.state) drawn
        (flat_map (ticket_seals server.now own.now entrant.now.session) tickets) tickets (Tickets (map ticket_part tickets))) }
    ensures short { IfOk result IsBodyShort }
{
    let save = changed(alloc, entrant.at.saved, &server.state())?;
    let entries = login_entries(alloc, &save, tickets.all())?;
    let mut told = Items::new(alloc);
    let session = entrant.session.bytes();
    let parts = logged_parts(alloc, server, own, session, tickets, &mut told)?;
    let body = reply_body(alloc, &Reply::Tickets(parts))?;
    Ok(ReplyMade {
        body,
        seals: drawn,
        sealed: told,
        save,
        entries,
    })
}

/// A daemon is told these generations of its type under its own secret.
pub(crate) fn tells_generations(
    alloc: Global,
    state: &KeptState,
    kind: EntityType,
    own: &[u8; 16],
    generations: Generations,
    at: &Occasion<'_>,
    drawn: Items<SealEntry>,
) -> Result<ReplyMade, AllocError>
    requires { AreReadings generations }
    ensures made { IfOk result (λ made. made ≡ reply_made (changed at.now.saved.now state.now) drawn
        (told_seal own.now (told_content kind generations) ∷ []) [] (Rotating (sealed own.now (told_content kind generations)))) }
    ensures short { IfOk result IsBodyShort }
{
    let content = RotatingReply {
        service: kind,
        generations,
    };
    let mut told = Items::new(alloc);
    told.push(alloc, told_seal(alloc, own, &content)?)?;
    let reply = Reply::Rotating(seal_rotating_reply(alloc, own, &content)?);
    let body = reply_body(alloc, &reply)?;
    let save = changed(alloc, at.saved, state)?;
    let entries = login_entries(alloc, &save, &[])?;
    Ok(ReplyMade {
        body,
        seals: drawn,
        sealed: told,
        save,
        entries,
    })
}

// That the generations were sealed under the daemon's secret.
fn told_seal(
    alloc: Global,
    own: &[u8; 16],
    content: &RotatingReply,
) -> Result<SealEntry, AllocError>
    requires { AreReadings content.now.generations }
    ensures { IfOk result (λ entry. entry ≡ told_seal own.now (told_content content.now.service content.now.generations)) }
{
    let content = write_whole(alloc, content)?;
    Ok(SealEntry::Sealed(SealMark {
        key: *own,
        kind: KeyKind::Principal,
        content,
    }))
}

//! What is logged of the tickets and of the secret of the connection.

ghost use Rattle.std.specs.Prelude.{◌≡◌, ◌++◌, ◌≤◌, length, map, IfOk, OnOk};
ghost use Rattle.std.specs.List.{flat_map};
ghost use Rattle.cx_cbc.specs.Envelope.{sealed};
ghost use Rattle.cx_keyserver.specs.Issuing.{current_at, service_ticket_of, ticket_info_of};
ghost use Rattle.cx_rules.specs.Tickets.{blob_kind, blob_sealed, info_key, info_kind, ticket_part, ticket_seals};
ghost use Rattle.cx_sealed.specs.Records.{service_ticket_layout, ticket_info_layout};
ghost use Rattle.cx_mon_grants.specs.Logging.{drawn_seal};
ghost use Rattle.cx_rules.specs.Verdicts.{secret_content, secret_seals};

use cx_base::{Blob, Duplicate, EntityName, EntityType, Items, Reading};
use cx_enc::TicketBlob;
use cx_journal::KeyKind;
use cx_keyserver::{Contents, Issuance, KeyServer, Ticket, generations_of};
use cx_rotate::{Generation, Generations};
use cx_sealed::{ConnectionSecret, SealKey, sealed_connection_secret};
use cx_steps::{DrawMark, SealEntry, SealMark};
use cx_wire::TicketPart;
use std::alloc::{AllocError, Global};

/// Logs the tickets, of which the one for AUTH is told by the entity's own secret and the others by the session key of that ticket, and gives
/// them as they stand in a LoginDone or a reply.
pub(crate) fn logged_parts(
    alloc: Global,
    server: &KeyServer,
    own: &[u8; 16],
    session: &[u8; 16],
    tickets: Items<Issuance>,
    seals: &mut Items<SealEntry>,
) -> Result<Items<TicketPart>, AllocError>
    ensures parts { IfOk result (λ parts. parts ≡ map ticket_part tickets) }
    ensures seals { OnOk result (seals.new ≡ seals.old ++ flat_map (ticket_seals server.now own.now session.now) tickets) }
{
    let mut parts = Items::new(alloc);
    for issuance in tickets.into_vec() {
        let (ticket, contents) = issuance.into_parts();
        log_ticket(alloc, server, own, session, &ticket, contents, seals)?;
        parts.push(alloc, ticket_part(ticket))?;
    }
    Ok(parts)
}

// A ticket as it stands in a LoginDone or a reply.
fn ticket_part(ticket: Ticket) -> TicketPart
    ensures { result ≡ ticket_part ticket }
{
    TicketPart {
        service: ticket.service,
        info: ticket.info,
        ticket: TicketBlob {
            generation: ticket.generation,
            blob: ticket.blob,
        },
    }
}

// Logs a ticket: its session key is drawn, its blob is sealed by its generation, its TicketInfo by the key that tells the entity.
fn log_ticket(
    alloc: Global,
    server: &KeyServer,
    own: &[u8; 16],
    session: &[u8; 16],
    ticket: &Ticket,
    contents: Contents,
    seals: &mut Items<SealEntry>,
) -> Result<(), AllocError>
    requires info { contents.info ≡ ticket_info_layout.form.text (ticket_info_of ticket.now) }
    requires blob { contents.blob ≡ service_ticket_layout.form.text (service_ticket_of ticket.now) }
    ensures { OnOk result (seals.new ≡ seals.old ++ ticket_seals server.now own.now session.now ticket.now) }
{
    let Contents { info, blob } = contents;
    let generations = generations_of(&server.state(), ticket.service);
    let generation = current_at(ticket.created, &generations);
    let key = info_key(own, session, ticket.service);
    seals.push(alloc, drawn_seal(alloc, ticket)?)?;
    log_blob(alloc, generation, ticket, blob, seals)?;
    let mark = SealMark {
        key,
        kind: info_kind(ticket.service),
        content: info,
    };
    seals.push(alloc, SealEntry::Sealed(mark))
}

// That its session key was drawn.
fn drawn_seal(alloc: Global, ticket: &Ticket) -> Result<SealEntry, AllocError>
    ensures { IfOk result (λ entry. entry ≡ drawn_seal ticket.now) }
{
    let for_whom = ticket.entity.copy(alloc)?;
    Ok(SealEntry::Drawn(DrawMark::Session {
        key: ticket.session,
        for_whom,
    }))
}

// Logs its blob, of this content, under its generation.
fn log_blob(
    alloc: Global,
    generation: Option<Generation>,
    ticket: &Ticket,
    content: Blob,
    seals: &mut Items<SealEntry>,
) -> Result<(), AllocError>
    requires { content ≡ service_ticket_layout.form.text (service_ticket_of ticket.now) }
    ensures { OnOk result (seals.new ≡ seals.old ++ blob_sealed generation ticket.now) }
{
    let Some(generation) = generation else {
        return Ok(());
    };
    let key = generation.key;
    let mark = SealMark {
        key,
        kind: blob_kind(ticket.service),
        content,
    };
    seals.push(alloc, SealEntry::Sealed(mark))
}

/// Seals the secret of a connection by the session key of the entity's ticket for AUTH, and logs that it was drawn for the entity and sealed.
pub(crate) fn logged_secret(
    alloc: Global,
    name: &EntityName,
    session: &SealKey,
    secret: &[u8; 64],
    seals: &mut Items<SealEntry>,
) -> Result<Blob, AllocError>
    ensures sealed { IfOk result (λ told. told ≡ sealed session.now (secret_content secret.now)) }
    ensures short { IfOk result (λ told. length told ≤ 1048601) }
    ensures seals { OnOk result (seals.new ≡ seals.old ++ secret_seals name.now session.now secret.now) }
{
    let for_whom = name.copy(alloc)?;
    let told = sealed_connection_secret(alloc, session, &ConnectionSecret { secret: *secret })?;
    let drawn = DrawMark::Connection {
        secret: *secret,
        for_whom,
    };
    let mark = SealMark {
        key: *session.bytes(),
        kind: KeyKind::Session,
        content: told.content,
    };
    seals.push(alloc, SealEntry::Drawn(drawn))?;
    seals.push(alloc, SealEntry::Sealed(mark))?;
    Ok(told.envelope)
}

// The generation that was current at this reading.
fn current_at(now: Reading, generations: &Generations) -> Option<Generation>
    ensures { result ≡ current_at now generations.now }
{
    let [_, second, _] = generations.all()?;
    if now < second.expires {
        return Some(second);
    }
    None
}

fn blob_kind(service: EntityType) -> KeyKind
    ensures { result ≡ blob_kind service }
{
    match service {
        EntityType::Auth => KeyKind::Auth,
        EntityType::Mon => KeyKind::Service,
        EntityType::Mds => KeyKind::Service,
        EntityType::Osd => KeyKind::Service,
        EntityType::Client => KeyKind::Service,
        EntityType::Mgr => KeyKind::Service,
    }
}

fn info_kind(service: EntityType) -> KeyKind
    ensures { result ≡ info_kind service }
{
    match service {
        EntityType::Auth => KeyKind::Principal,
        EntityType::Mon => KeyKind::Session,
        EntityType::Mds => KeyKind::Session,
        EntityType::Osd => KeyKind::Session,
        EntityType::Client => KeyKind::Session,
        EntityType::Mgr => KeyKind::Session,
    }
}

fn info_key(own: &[u8; 16], session: &[u8; 16], service: EntityType) -> [u8; 16]
    ensures { result ≡ info_key own.now session.now service }
{
    match service {
        EntityType::Auth => *own,
        EntityType::Mon => *session,
        EntityType::Mds => *session,
        EntityType::Osd => *session,
        EntityType::Client => *session,
        EntityType::Mgr => *session,
    }
}

//! Making a ticket.

ghost use Rattle.std.specs.Prelude.{◌≡◌, ◌<◌, ◌≤◌, true, Some, IfOk, IfSome, IsTrue, find};
ghost use Rattle.std.specs.List.{slice_get};
ghost use Rattle.std.specs.Option.{option_copied};
ghost use Rattle.cx_base.specs.Names.{same_kind};
ghost use Rattle.cx_base.specs.Texts.{is_caps};
ghost use Rattle.cx_keyring.specs.Entries.{are_grants};
ghost use Rattle.cx_dice.specs.Draws.{has_keys};
ghost use Rattle.cx_keyring.specs.cx_enc.specs.Moments.{IsReading};
ghost use Rattle.cx_sealed.specs.Records.{service_ticket_layout, ticket_info_layout};
ghost use Rattle.cx_sealed.specs.Sealing.{IsSealed};
ghost use Rattle.cx_rotate.specs.Keeping.{IsKeptState};
ghost use Rattle.cx_keyserver.specs.Issuing.{IsIssued, IsOpenable, OpensUnder, asked_for, caps_for, current_at, fields_of, issued, sealed_by, telling_key, wants_memory};
ghost use Rattle.cx_keyserver.specs.Servers.{life_of};

use crate::issuance::Issuance;
use crate::refusals::IssueRefusal;
use crate::services::{generations_of, life_of};
use crate::tickets::Ticket;
use cx_base::{Duplicate, EntityName, EntityType, Grant, Reading, Text};
use cx_dice::Draw;
use cx_keyring::{Entry, Keyring};
use cx_rotate::{Generation, Generations, KeptState};
use cx_sealed::{
    SealKey, SealedRecord, ServiceTicket, TicketInfo, sealed_service_ticket, sealed_ticket_info,
};
use std::alloc::{AllocError, Global};

// What is asked for: a ticket of an entity for a service, with the entity's global id and the session key of its AUTH ticket,
// at a reading and with a draw.
#[derive(Clone, Copy)]
pub(crate) struct TicketRequest<'a> {
    pub(crate) name: &'a EntityName,
    pub(crate) service: EntityType,
    pub(crate) gid: u64,
    pub(crate) auth_session: &'a SealKey,
    pub(crate) reading: Reading,
    pub(crate) draw: &'a Draw,
}

/// The ticket that is asked for, of an entity of the ring, under the generations of the state.
pub(crate) fn issued(
    alloc: Global,
    ring: &Keyring,
    state: &KeptState,
    asked: &TicketRequest<'_>,
) -> Result<Issuance, IssueRefusal>
    requires now { asked.now.reading < 4000000000000000000 }
    requires kept { IsKeptState state.now }
    ensures issued { IsIssued (issued (record { ring = ring.now; state = state.now }) (asked_for asked.now)) result }
    ensures opens { IfOk result (IsOpenable (record { ring = ring.now; state = state.now }) (asked_for asked.now)) }
{
    let Some(entry) = ring.find(asked.name) else {
        return Err(IssueRefusal::UnknownEntity);
    };
    if !has_keys(asked.service) {
        return Err(IssueRefusal::NotAService);
    }
    let Some(caps) = caps_for(alloc, asked.service, entry)? else {
        return Err(IssueRefusal::NoCaps);
    };
    let generations = generations_of(state, asked.service);
    let Some(generation) = current_at(asked.reading, &generations) else {
        return Err(IssueRefusal::IdsSpent);
    };
    let ticket = ticket(alloc, state, asked, entry, caps, &generation)?;
    Ok(ticket)
}

/// Whether memory was wanting.
pub(crate) fn wants_memory(answer: &Result<Issuance, IssueRefusal>) -> bool
    ensures { result ≡ wants_memory answer.now }
{
    match answer {
        Ok(_) => false,
        Err(IssueRefusal::UnknownEntity) => false,
        Err(IssueRefusal::NotAService) => false,
        Err(IssueRefusal::NoCaps) => false,
        Err(IssueRefusal::IdsSpent) => false,
        Err(IssueRefusal::OutOfMemory) => true,
    }
}

// Whether there are tickets for the service.
fn has_keys(service: EntityType) -> bool
    ensures { result ≡ has_keys service }
{
    match service {
        EntityType::Mds => true,
        EntityType::Osd => true,
        EntityType::Mgr => true,
        EntityType::Auth => true,
        EntityType::Mon => false,
        EntityType::Client => false,
    }
}

// The current generation, while it is unexpired.
fn current_at(now: Reading, generations: &Generations) -> Option<Generation>
    ensures { result ≡ current_at now generations.now }
{
    let [_, second, _] = generations.all()?;
    if now < second.expires {
        return Some(second);
    }
    None
}

// The caps of an entity for a service.
#[tactic(auto, using(crate::proofs::Grants::is_caps_text))]
fn caps_for(alloc: Global, service: EntityType, entry: &Entry) -> Result<Option<Text>, AllocError>
    requires { IsTrue (are_grants entry.now.caps) }
    ensures caps { IfOk result (λ caps. caps ≡ caps_for service entry.now) }
    ensures good { IfOk result (λ caps. IfSome caps (λ text. IsTrue (is_caps text))) }
{
    if service.is(EntityType::Auth) {
        let none = Text::new(alloc)?;
        return Ok(Some(none));
    }
    match grant_for(service, entry.caps.all()) {
        None => Ok(None),
        Some(grant) => {
            let caps = grant.caps.copy(alloc)?;
            Ok(Some(caps))
        }
    }
}

fn grant_for(service: EntityType, grants: &[Grant]) -> Option<&Grant>
    ensures { option_copied result ≡ find (λ grant. same_kind service grant.service) grants.now }
{
    grants.iter().find(|grant| service.is(grant.service))
}

// Seals what the entity is told of its ticket, under the key that tells it.
fn telling(
    alloc: Global,
    entry: &Entry,
    asked: &TicketRequest<'_>,
    told: &TicketInfo,
) -> Result<SealedRecord, AllocError>
    requires created { IsReading told.now.created }
    requires expires { IsReading told.now.expires }
    ensures sealed { IfOk result (λ made. IsSealed ticket_info_layout.form (telling_key entry.now (asked_for asked.now)) told.now made.envelope) }
    ensures content { IfOk result (λ made. made.content ≡ ticket_info_layout.form.text told.now) }
{
    if asked.service.is(EntityType::Auth) {
        sealed_ticket_info(alloc, &SealKey::new(&entry.key.secret), told)
    } else {
        sealed_ticket_info(alloc, asked.auth_session, told)
    }
}

// The ticket of the entity of this entry, with these caps and under this generation.
fn ticket(
    alloc: Global,
    state: &KeptState,
    asked: &TicketRequest<'_>,
    entry: &Entry,
    caps: Text,
    generation: &Generation,
) -> Result<Issuance, AllocError>
    requires service { IsTrue (has_keys asked.now.service) }
    requires caps { IsTrue (is_caps caps) }
    requires now { asked.now.reading < 4000000000000000000 }
    requires life { life_of state.now asked.now.service ≤ 31536000000000000 }
    ensures ticket { IfOk result (λ t. t ≡ sealed_by generation.now.key (telling_key entry.now (asked_for asked.now)) (fields_of state.now (asked_for asked.now) caps generation.now)) }
    ensures opens { IfOk result (OpensUnder generation.now.key (telling_key entry.now (asked_for asked.now))) }
{
    let session = asked.draw.session_key(asked.service);
    let created = asked.reading;
    let expires = asked.reading + life_of(state, asked.service);
    let told = TicketInfo {
        service: asked.service,
        session,
        created,
        expires,
    };
    let info = telling(alloc, entry, asked, &told)?;
    let entity = asked.name.copy(alloc)?;
    let shown = ServiceTicket {
        session,
        name: entity,
        gid: asked.gid,
        created,
        expires,
        caps,
    };
    let blob = sealed_service_ticket(alloc, &SealKey::new(&generation.key), &shown)?;
    Ok(made(shown, told, generation.id, info, blob))
}

// A ticket of its parts, and of what was sealed as these.
fn made(
    shown: ServiceTicket,
    told: TicketInfo,
    generation: u64,
    info: SealedRecord,
    blob: SealedRecord,
) -> Issuance
    requires info { info.content ≡ ticket_info_layout.form.text told }
    requires blob { blob.content ≡ service_ticket_layout.form.text shown }
    requires same { (told.session ≡ shown.session) × (told.created ≡ shown.created) × (told.expires ≡ shown.expires) }
    ensures { result ≡ record {
      entity = shown.name;
      service = told.service;
      gid = shown.gid;
      caps = shown.caps;
      created = shown.created;
      expires = shown.expires;
      generation = generation;
      session = shown.session;
      info = info.envelope;
      blob = blob.envelope;
    } }
{
    let session = shown.session;
    let ticket = Ticket {
        entity: shown.name,
        service: told.service,
        gid: shown.gid,
        caps: shown.caps,
        created: shown.created,
        expires: shown.expires,
        generation,
        session,
        info: info.envelope,
        blob: blob.envelope,
    };
    Issuance::of(ticket, info.content, blob.content)
}

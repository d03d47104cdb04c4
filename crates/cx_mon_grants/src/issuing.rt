//! The tickets of a login, or of a request.

ghost use Rattle.std.specs.Prelude.{◌≡◌, ◌++◌, ◌∷◌, [], ◌<◌, false, All, filter, IfOk, IfSome, OnOk, option_to_list};
ghost use Rattle.cx_keyserver.specs.Issuing.{issued, wants_memory};
ghost use Rattle.cx_rules.specs.Replies.{others_for};
ghost use Rattle.cx_rules.specs.Tickets.{is_asked, issued_for, services_for};
ghost use Rattle.cx_mon_grants.specs.Handing.{IsWhole};
ghost use Rattle.cx_mon_grants.specs.Issuing.{IsRotated, one_of};
ghost use Rattle.cx_mon_grants.specs.Occasions.{asking_by};

use crate::occasions::Entrant;
use cx_base::{EntityType, Items};
use cx_enc::number_of;
use cx_journal::LoginFault;
use cx_keyserver::{Issuance, IssueRefusal, KeyServer};
use std::alloc::{AllocError, Global};

/// AUTH, and of MDS, OSD and MGR those that are asked by the sum of their numbers.
pub(crate) fn services_for(alloc: Global, asked: u32) -> Result<Items<EntityType>, AllocError>
    ensures { IfOk result (λ services. services ≡ services_for asked) }
{
    let mut services = Items::new(alloc);
    services.push(alloc, EntityType::Auth)?;
    push_others(alloc, asked, &mut services)?;
    Ok(services)
}

/// Of MDS, OSD and MGR those that are asked by the sum of their numbers.
pub(crate) fn others_for(alloc: Global, asked: u32) -> Result<Items<EntityType>, AllocError>
    ensures { IfOk result (λ services. services ≡ others_for asked) }
{
    let mut services = Items::new(alloc);
    push_others(alloc, asked, &mut services)?;
    Ok(services)
}

// Appends those that are asked.
fn push_others(
    alloc: Global,
    asked: u32,
    services: &mut Items<EntityType>,
) -> Result<(), AllocError>
    ensures { OnOk result (services.new ≡ services.old ++ others_for asked) }
{
    push_asked(alloc, asked, EntityType::Mds, services)?;
    push_asked(alloc, asked, EntityType::Osd, services)?;
    push_asked(alloc, asked, EntityType::Mgr, services)
}

// Appends the service where it is asked.
fn push_asked(
    alloc: Global,
    asked: u32,
    service: EntityType,
    services: &mut Items<EntityType>,
) -> Result<(), AllocError>
    ensures { OnOk result (services.new ≡ services.old ++ filter (is_asked asked) (service ∷ [])) }
{
    if is_asked(asked, service) {
        services.push(alloc, service)?;
    }
    Ok(())
}

fn is_asked(asked: u32, service: EntityType) -> bool
    ensures { result ≡ is_asked asked service }
{
    (asked / number_of(service)) % 2 == 1
}

/// The entrant's tickets for these services, or why there are none. The server, which is rotated, stays as it is.
pub(crate) fn issued_for(
    alloc: Global,
    server: &mut KeyServer,
    entrant: &Entrant<'_>,
    services: &[EntityType],
) -> Result<Result<Items<Issuance>, LoginFault>, AllocError>
    requires now { entrant.now.at.reading < 4000000000000000000 }
    requires rotated { IsRotated entrant.now.at.reading entrant.now.at.draw.now.bytes server.old }
    ensures issued { IfOk result (λ tickets. tickets ≡ issued_for server.old (asking_by entrant.now) services.now) }
    ensures whole { IfOk result (λ tickets. IfOk tickets (All IsWhole)) }
    ensures server { server.new ≡ server.old }
{
    let mut tickets = Items::new(alloc);
    for service in services {
        let one = issue_one(alloc, server, entrant, *service)?;
        let ticket = match one {
            Ok(ticket) => ticket,
            Err(why) => return Ok(Err(why)),
        };
        append(alloc, ticket, &mut tickets)?;
    }
    Ok(Ok(tickets))
}

// Appends the ticket, where there is one.
fn append(
    alloc: Global,
    ticket: Option<Issuance>,
    tickets: &mut Items<Issuance>,
) -> Result<(), AllocError>
    ensures { OnOk result (tickets.new ≡ tickets.old ++ option_to_list ticket) }
{
    match ticket {
        None => Ok(()),
        Some(ticket) => tickets.push(alloc, ticket),
    }
}

// The entrant's ticket for a service; none where it has no caps for it.
fn issue_one(
    alloc: Global,
    server: &mut KeyServer,
    entrant: &Entrant<'_>,
    service: EntityType,
) -> Result<Result<Option<Issuance>, LoginFault>, AllocError>
    requires now { entrant.now.at.reading < 4000000000000000000 }
    requires rotated { IsRotated entrant.now.at.reading entrant.now.at.draw.now.bytes server.old }
    ensures one { IfOk result (λ one. one ≡ one_of (issued server.old (asking_by entrant.now service))) }
    ensures whole { IfOk result (λ one. IfOk one (λ ticket. IfSome ticket IsWhole)) }
    ensures server { server.new ≡ server.old }
{
    let at = entrant.at;
    let answer = server.issue(
        alloc,
        entrant.name,
        service,
        entrant.gid,
        &entrant.session,
        at.reading,
        at.draw,
    );
    one_of(answer)
}

// The ticket of an answer; none where there is none for its service alone.
fn one_of(
    answer: Result<Issuance, IssueRefusal>,
) -> Result<Result<Option<Issuance>, LoginFault>, AllocError>
    ensures one { IfOk result (λ one. one ≡ one_of answer) }
    ensures memory { OnOk result (wants_memory answer ≡ false) }
{
    match answer {
        Ok(ticket) => Ok(Ok(Some(ticket))),
        Err(IssueRefusal::NoCaps) => Ok(Ok(None)),
        Err(IssueRefusal::NotAService) => Ok(Ok(None)),
        Err(IssueRefusal::IdsSpent) => Ok(Err(LoginFault::IdsSpent)),
        Err(IssueRefusal::UnknownEntity) => Ok(Err(LoginFault::UnknownEntity)),
        Err(IssueRefusal::OutOfMemory) => Err(AllocError),
    }
}

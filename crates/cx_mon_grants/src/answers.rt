//! What comes of a request on an open link: the steps, in their order.

ghost use Rattle.std.specs.Prelude.{◌≡◌, ◌<◌, IfOk, OnOk, OnErr};
ghost use Rattle.cx_rules.specs.Replies.{answers, answers_by, on_rotating, on_tickets};
ghost use Rattle.cx_journal.specs.declared.outcomes.Reason.TheVariants.{Login};
ghost use Rattle.cx_rules.specs.declared.responses.Response.TheVariants.{Refuses};
ghost use Rattle.cx_mon_grants.specs.Deciding.{Responds};
ghost use Rattle.cx_mon_grants.specs.Issuing.{IsRotated};
ghost use Rattle.cx_mon_grants.specs.Occasions.{occasion_of};
ghost use Rattle.cx_mon_grants.specs.Telling.{IfReplies, IsBodyShort};

use crate::issuing::{issued_for, others_for};
use crate::occasions::{Entrant, Occasion};
use crate::replies::{tells_generations, tells_tickets};
use crate::rotating::rotated;
use cx_base::Items;
use cx_journal::{LoginFault, Reason};
use cx_keyserver::KeyServer;
use cx_rules::{Bearer, Response};
use cx_sealed::SealKey;
use cx_steps::SealEntry;
use cx_wire::Request;
use std::alloc::{AllocError, Global};

/// Answers a request of an entity on its open link: with tickets, with the generations of its own type, or with the reason for which the link is
/// refused. None is a request that the monitor doesn't know. The rotation stays, whatever the response.
pub fn answer(
    alloc: Global,
    server: &mut KeyServer,
    bearer: &Bearer,
    request: Option<Request>,
    at: &Occasion<'_>,
) -> Result<Response, AllocError>
    requires { at.now.reading < 4000000000000000000 }
    ensures response { IfOk result (λ response. response ≡ (answers (occasion_of at.now) server.old bearer.now request).response) }
    ensures server { OnOk result (server.new ≡ (answers (occasion_of at.now) server.old bearer.now request).server) }
    // A body fits a segment.
    ensures short { IfOk result (IfReplies IsBodyShort) }
    ensures err { OnErr result (server.new ≡ server.old) }
{
    let before = server.state();
    let response = answer_rotated(alloc, server, bearer, request, at);
    if response.is_err() {
        server.restore(before);
    }
    response
}

// The secrets are rotated, whatever comes of the request.
fn answer_rotated(
    alloc: Global,
    server: &mut KeyServer,
    bearer: &Bearer,
    request: Option<Request>,
    at: &Occasion<'_>,
) -> Result<Response, AllocError>
    requires { at.now.reading < 4000000000000000000 }
    ensures responds { Responds (answers (occasion_of at.now) server.old bearer.now request) server.new result }
    ensures short { IfOk result (IfReplies IsBodyShort) }
    ensures ring { server.new.ring ≡ server.old.ring }
{
    let mut drawn = Items::new(alloc);
    rotated(alloc, server, at.reading, at.draw, &mut drawn)?;
    answers_by(alloc, server, bearer, request, at, drawn)
}

fn answers_by(
    alloc: Global,
    server: &mut KeyServer,
    bearer: &Bearer,
    request: Option<Request>,
    at: &Occasion<'_>,
    drawn: Items<SealEntry>,
) -> Result<Response, AllocError>
    requires now { at.now.reading < 4000000000000000000 }
    requires rotated { IsRotated at.now.reading at.now.draw.now.bytes server.old }
    ensures responds { Responds (answers_by (occasion_of at.now) server.old bearer.now drawn request) server.new result }
    ensures short { IfOk result (IfReplies IsBodyShort) }
    ensures server { server.new ≡ server.old }
{
    match request {
        Some(Request::Tickets(keys)) => on_tickets(alloc, server, bearer, keys, at, drawn),
        Some(Request::Rotating) => on_rotating(alloc, server, bearer, at, drawn),
        None => Ok(Response::Refuses {
            why: Reason::BadRequest,
            seals: drawn,
        }),
    }
}

// Tickets for the asked services for which the entity has capabilities, where the keyring has it.
fn on_tickets<'a>(
    alloc: Global,
    server: &mut KeyServer,
    bearer: &'a Bearer,
    keys: u32,
    at: &Occasion<'a>,
    drawn: Items<SealEntry>,
) -> Result<Response, AllocError>
    requires now { at.now.reading < 4000000000000000000 }
    requires rotated { IsRotated at.now.reading at.now.draw.now.bytes server.old }
    ensures responds { Responds (on_tickets (occasion_of at.now) server.old bearer.now drawn keys) server.new result }
    ensures short { IfOk result (IfReplies IsBodyShort) }
    ensures server { server.new ≡ server.old }
{
    let Some(own) = server.key_of(&bearer.name) else {
        return Ok(refuses(LoginFault::UnknownEntity, drawn));
    };
    let draw = at.draw.at_hand(alloc)?;
    let entrant = Entrant {
        name: &bearer.name,
        gid: bearer.gid,
        session: SealKey::new(&bearer.session),
        asked: keys,
        at: Occasion { draw: &draw, ..*at },
    };
    let services = others_for(alloc, keys)?;
    let tickets = issued_for(alloc, server, &entrant, services.all())?;
    match tickets {
        Err(why) => Ok(refuses(why, drawn)),
        Ok(tickets) => {
            let made = tells_tickets(alloc, server, &entrant, &own.secret, tickets, drawn)?;
            Ok(Response::Replies(made))
        }
    }
}

// The link is refused as a login is.
fn refuses(why: LoginFault, drawn: Items<SealEntry>) -> Response
    ensures { result ≡ Refuses (Login why) drawn }
{
    Response::Refuses {
        why: Reason::Login(why),
        seals: drawn,
    }
}

// A daemon of the keyring is told the generations of its own type; nobody else is told any.
fn on_rotating(
    alloc: Global,
    server: &KeyServer,
    bearer: &Bearer,
    at: &Occasion<'_>,
    drawn: Items<SealEntry>,
) -> Result<Response, AllocError>
    ensures responds { Responds (on_rotating (occasion_of at.now) server.now bearer.now drawn) server.now result }
    ensures short { IfOk result (IfReplies IsBodyShort) }
{
    let state = server.state();
    match (
        server.key_of(&bearer.name),
        server.secrets_for(&bearer.name),
    ) {
        (Some(own), Ok(generations)) => {
            let kind = bearer.name.kind;
            let made = tells_generations(alloc, &state, kind, &own.secret, generations, at, drawn)?;
            Ok(Response::Replies(made))
        }
        _ => Ok(Response::Refuses {
            why: Reason::NotADaemon,
            seals: drawn,
        }),
    }
}

//! What comes of a login whose proof was found equal: the steps, in their order.

ghost use Rattle.std.specs.Prelude.{◌≡◌, ◌<◌, IfOk, OnOk, OnErr};
ghost use Rattle.cx_base.specs.declared.kinds.EntityType.TheVariants.{Auth};
ghost use Rattle.cx_dice.specs.Draws.{session_of};
ghost use Rattle.cx_rules.specs.Verdicts.{done_payload, handed_out, issues_to, key_of, numbered, numbers, rotates};
ghost use Rattle.cx_mon_grants.specs.Handing.{CanBeHandedOut};
ghost use Rattle.cx_mon_grants.specs.Issuing.{IsRotated};
ghost use Rattle.cx_mon_grants.specs.Occasions.{entrant_of, occasion_of};
ghost use Rattle.cx_mon_grants.specs.Deciding.{Decides};

use crate::entries::login_entries;
use crate::issuing::{issued_for, services_for};
use crate::logging::{logged_parts, logged_secret};
use crate::numbering::numbered;
use crate::occasions::{Entrant, Occasion};
use crate::payloads::done_payload;
use crate::rotating::rotated;
use crate::saving::changed;
use cx_base::{Duplicate, EntityType, Items};
use cx_journal::LoginFault;
use cx_keyserver::{Issuance, KeyServer};
use cx_login::{Proved, Reclaim};
use cx_rules::{HandedOut, Verdict};
use cx_sealed::SealKey;
use cx_steps::SealEntry;
use cx_wire::LoginDone;
use std::alloc::{AllocError, Global};

/// Grants an entity that proved itself its global id and its tickets, or denies them. `hello_gid` is the global id of its LoginHello.
/// The rotation stays and a global id is used up, whatever the verdict.
pub fn log_in(
    alloc: Global,
    server: &mut KeyServer,
    proved: &Proved,
    hello_gid: u64,
    at: &Occasion<'_>,
) -> Result<Verdict, AllocError>
    requires { at.now.reading < 4000000000000000000 }
    ensures verdict { IfOk result (λ verdict. verdict ≡ (rotates (occasion_of at.now) server.old hello_gid proved.now).verdict) }
    ensures server { OnOk result (server.new ≡ (rotates (occasion_of at.now) server.old hello_gid proved.now).server) }
    ensures err { OnErr result (server.new ≡ server.old) }
{
    let before = server.state();
    let verdict = rotates(alloc, server, proved, hello_gid, at);
    if verdict.is_err() {
        server.restore(before);
    }
    verdict
}

// The secrets are rotated, whatever comes of the login; and the old ticket decides whether the global id is kept.
fn rotates(
    alloc: Global,
    server: &mut KeyServer,
    proved: &Proved,
    hello_gid: u64,
    at: &Occasion<'_>,
) -> Result<Verdict, AllocError>
    requires { at.now.reading < 4000000000000000000 }
    ensures decides { Decides (rotates (occasion_of at.now) server.old hello_gid proved.now) server.new result }
    ensures ring { server.new.ring ≡ server.old.ring }
{
    let mut seals = Items::new(alloc);
    seals.push(alloc, proved.found(alloc)?)?;
    rotated(alloc, server, at.reading, at.draw, &mut seals)?;
    let auth = server.state().auth;
    let reclaim = proved.reclaim(alloc, hello_gid, &auth, at.reading, &mut seals)?;
    numbers(alloc, server, proved, at, reclaim, seals)
}

fn numbers<'a>(
    alloc: Global,
    server: &mut KeyServer,
    proved: &'a Proved,
    at: &Occasion<'a>,
    reclaim: Reclaim,
    seals: Items<SealEntry>,
) -> Result<Verdict, AllocError>
    requires now { at.now.reading < 4000000000000000000 }
    requires rotated { IsRotated at.now.reading at.now.draw.now.bytes server.old }
    ensures decides { Decides (numbers (occasion_of at.now) server.old proved.now seals (numbered server.old reclaim)) server.new result }
    ensures ring { server.new.ring ≡ server.old.ring }
{
    match numbered(server, reclaim) {
        Err(why) => Ok(Verdict::Denied { why, seals }),
        Ok(gid) => {
            let draw = at.draw.at_hand(alloc)?;
            let entrant = Entrant {
                name: proved.name(),
                gid,
                session: SealKey::new(&draw.session_key(EntityType::Auth)),
                asked: proved.asked(),
                at: Occasion { draw: &draw, ..*at },
            };
            issues_to(alloc, server, &entrant, seals)
        }
    }
}

// The tickets are issued, where the keyring has the entity.
fn issues_to(
    alloc: Global,
    server: &mut KeyServer,
    entrant: &Entrant<'_>,
    seals: Items<SealEntry>,
) -> Result<Verdict, AllocError>
    requires now { entrant.now.at.reading < 4000000000000000000 }
    requires rotated { IsRotated entrant.now.at.reading entrant.now.at.draw.now.bytes server.old }
    requires session { entrant.now.session ≡ session_of Auth entrant.now.at.draw.now.bytes }
    ensures decides { Decides (issues_to (occasion_of entrant.now.at) server.old (entrant_of entrant.now seals) (key_of server.old entrant.now.name.now)) server.new result }
    ensures server { server.new ≡ server.old }
{
    let Some(own) = server.key_of(entrant.name) else {
        return Ok(Verdict::Denied {
            why: LoginFault::UnknownEntity,
            seals,
        });
    };
    let services = services_for(alloc, entrant.asked)?;
    let tickets = issued_for(alloc, server, entrant, services.all())?;
    match tickets {
        Err(why) => Ok(Verdict::Denied { why, seals }),
        Ok(tickets) => {
            let handed = handed_out(alloc, server, entrant, &own.secret, tickets, seals)?;
            Ok(Verdict::Granted(handed))
        }
    }
}

// What is handed out, with the secret of the connection sealed by the session key.
fn handed_out(
    alloc: Global,
    server: &KeyServer,
    entrant: &Entrant<'_>,
    own: &[u8; 16],
    tickets: Items<Issuance>,
    seals: Items<SealEntry>,
) -> Result<HandedOut, AllocError>
    requires session { entrant.now.session ≡ session_of Auth entrant.now.at.draw.now.bytes }
    requires tickets { CanBeHandedOut tickets }
    ensures { IfOk result (λ handed. handed ≡ handed_out (occasion_of entrant.now.at) server.now (entrant_of entrant.now seals) own.now tickets) }
{
    let at = entrant.at;
    let session = &entrant.session;
    let save = changed(alloc, at.saved, &server.state())?;
    let entries = login_entries(alloc, &save, tickets.all())?;
    let mut sealed = Items::new(alloc);
    let tickets = logged_parts(alloc, server, own, session.bytes(), tickets, &mut sealed)?;
    let secret = at.draw.connection_secret();
    let connection_secret = logged_secret(alloc, entrant.name, session, &secret, &mut sealed)?;
    let done = LoginDone {
        tickets,
        connection_secret,
    };
    let payload = done_payload(alloc, entrant.gid, &done)?;
    Ok(HandedOut {
        name: entrant.name.copy(alloc)?,
        gid: entrant.gid,
        session: *session.bytes(),
        secret,
        payload,
        seals,
        sealed,
        save,
        entries,
    })
}

//! Sealed records, and the proof of a login. The bytes of a record are a key of 16 bytes and the content, which is sealed under it.

ghost use Rattle.std.specs.Prelude.{IfOk};
ghost use Rattle.cx_enc.specs.Moments.{IsReading};
ghost use Rattle.cx_sealed.specs.Records.{AreReadings};

use crate::answered::{Answered, Refused, copied, told_whole};
use crate::bounds::{is_capped, is_reading};
use crate::shown::Hex;
use cx_aes::Schedule;
use cx_base::Blob;
use cx_cbc::seal;
use cx_enc::Cut;
use cx_rotate::{Generation, Generations};
use cx_sealed::{
    RotatingReply, open_authorize, open_authorize_challenge, open_authorize_reply,
    open_connection_secret, open_rotating_reply, open_service_ticket, open_ticket_info, proof,
    seal_authorize, seal_authorize_challenge, seal_authorize_reply, seal_connection_secret,
    seal_rotating_reply, seal_service_ticket, seal_ticket_info,
};
use std::alloc::Global;
use std::fmt;

/// What bytes of the kind of this name mean.
pub fn record(alloc: Global, kind: &str, bytes: &[u8]) -> Result<Answered, Refused> {
    if kind == "proof" {
        return login_proof(alloc, bytes);
    }
    let mut cut = Cut::new(bytes);
    let Ok(key) = cut.take_array::<16>() else {
        return Err(Refused::NoKey);
    };
    let rest = bytes.get(16..).unwrap_or(&[]);
    if let Some(kind) = kind.strip_prefix("open-") {
        return opened(alloc, kind, &key, rest);
    }
    let sealed = sealed(alloc, &key, rest)?;
    let answered = opened(alloc, kind, &key, sealed.bytes())?;
    content(alloc, bytes, sealed.bytes(), answered)
}

// The envelope that is sealed again has to be this one, and stands for these bytes.
fn content(
    alloc: Global,
    bytes: &[u8],
    sealed: &[u8],
    answered: Answered,
) -> Result<Answered, Refused> {
    if answered.again.bytes() != sealed {
        return Ok(answered);
    }
    let meaning = format!(in alloc; "{} envelope {}", answered.meaning, Hex(sealed))?;
    let again = Blob::of(alloc, bytes)?;
    Ok(Answered { meaning, again })
}

fn sealed(alloc: Global, key: &[u8; 16], content: &[u8]) -> Result<Blob, Refused> {
    match seal(alloc, &Schedule::new(key), content) {
        Ok(sealed) => Ok(sealed),
        Err(_) => Err(Refused::OutOfMemory),
    }
}

// What an envelope holds, opened as this record.
fn opened(alloc: Global, kind: &str, key: &[u8; 16], envelope: &[u8]) -> Result<Answered, Refused> {
    match kind {
        "service-ticket" => service_ticket(alloc, key, envelope),
        "ticket-info" => ticket_info(alloc, key, envelope),
        "authorize" => authorize(alloc, key, envelope),
        "sealed-challenge" => challenge(alloc, key, envelope),
        "sealed-reply" => reply(alloc, key, envelope),
        "rotating-reply" => rotating_reply(alloc, key, envelope),
        "connection-secret" => connection_secret(alloc, key, envelope),
        _ => Err(Refused::NoKind),
    }
}

fn service_ticket(alloc: Global, key: &[u8; 16], envelope: &[u8]) -> Result<Answered, Refused> {
    let x = copied(alloc, open_service_ticket(alloc, key, envelope))?;
    is_reading(x.created)?;
    is_reading(x.expires)?;
    is_capped(&x.caps)?;
    let again = seal_service_ticket(alloc, key, &x);
    let meaning = format!(in alloc;
        "session {} name {} gid {} created {} expires {} caps {}",
        Hex(&x.session),
        x.name,
        x.gid,
        x.created,
        x.expires,
        Hex(x.caps.bytes())
    );
    told_whole(again, meaning)
}

fn ticket_info(alloc: Global, key: &[u8; 16], envelope: &[u8]) -> Result<Answered, Refused> {
    let x = open_ticket_info(alloc, key, envelope)?;
    is_reading(x.created)?;
    is_reading(x.expires)?;
    let again = seal_ticket_info(alloc, key, &x);
    let meaning = format!(in alloc;
        "service {} session {} created {} expires {}",
        x.service,
        Hex(&x.session),
        x.created,
        x.expires
    );
    told_whole(again, meaning)
}

fn authorize(alloc: Global, key: &[u8; 16], envelope: &[u8]) -> Result<Answered, Refused> {
    let x = open_authorize(alloc, key, envelope)?;
    let again = seal_authorize(alloc, key, &x);
    let meaning = format!(in alloc;
        "nonce {} challenge {} {}",
        x.nonce, x.have_challenge, x.server_challenge_plus_one
    );
    told_whole(again, meaning)
}

fn challenge(alloc: Global, key: &[u8; 16], envelope: &[u8]) -> Result<Answered, Refused> {
    let x = open_authorize_challenge(alloc, key, envelope)?;
    let again = seal_authorize_challenge(alloc, key, &x);
    let meaning = format!(in alloc; "challenge {}", x.challenge);
    told_whole(again, meaning)
}

fn reply(alloc: Global, key: &[u8; 16], envelope: &[u8]) -> Result<Answered, Refused> {
    let x = open_authorize_reply(alloc, key, envelope)?;
    let again = seal_authorize_reply(alloc, key, &x);
    let meaning = format!(in alloc;
        "nonce_plus_one {} secret {}",
        x.nonce_plus_one,
        Hex(&x.secret)
    );
    told_whole(again, meaning)
}

fn connection_secret(alloc: Global, key: &[u8; 16], envelope: &[u8]) -> Result<Answered, Refused> {
    let x = open_connection_secret(alloc, key, envelope)?;
    let again = seal_connection_secret(alloc, key, &x);
    let meaning = format!(in alloc; "secret {}", Hex(&x.secret));
    told_whole(again, meaning)
}

fn rotating_reply(alloc: Global, key: &[u8; 16], envelope: &[u8]) -> Result<Answered, Refused> {
    let opened = open_rotating_reply(alloc, key, envelope)?;
    let service = opened.service;
    let generations = held(&opened.generations)?;
    let meaning = format!(in alloc; "service {service}{}", Each(&generations));
    let reply = RotatingReply {
        service,
        generations,
    };
    told_whole(seal_rotating_reply(alloc, key, &reply), meaning)
}

// The same generations, whose expiries time fields can hold.
fn held(generations: &Generations) -> Result<Generations, Refused>
    ensures { IfOk result AreReadings }
{
    let Some(three) = generations.all() else {
        return Ok(Generations::empty());
    };
    let all = [timed(three[0])?, timed(three[1])?, timed(three[2])?];
    match Generations::of(&all) {
        Some(held) => Ok(held),
        None => Err(Refused::Unfit),
    }
}

/// Generations, each as ` id ID key KEY expires READING`.
#[derive(Clone, Copy)]
pub struct Each<'a>(pub &'a Generations);

impl fmt::Display for Each<'_> {
    fn fmt<W: fmt::Write>(&self, f: &mut fmt::Formatter<W>) -> fmt::Result {
        for place in 0..3 {
            if let Some(g) = self.0.get(place) {
                write!(f, " id {} key {} expires {}", g.id, Hex(&g.key), g.expires)?;
            }
        }
        Ok(())
    }
}

// A generation whose expiry a time field can hold.
fn timed(generation: Generation) -> Result<Generation, Refused>
    ensures { IfOk result (λ g. IsReading g.expires) }
{
    is_reading(generation.expires)?;
    Ok(generation)
}

// A key and the two challenges.
fn login_proof(alloc: Global, bytes: &[u8]) -> Result<Answered, Refused> {
    let mut cut = Cut::new(bytes);
    let key = cut.take_array::<16>()?;
    let server = cut.take_u64()?;
    let client = cut.take_u64()?;
    let proof = proof(&key, server, client);
    Ok(Answered {
        meaning: format!(in alloc; "{proof}")?,
        again: Blob::of(alloc, bytes)?,
    })
}

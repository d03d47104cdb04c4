//! Writing the payloads by which a client and a daemon answer each other.

ghost use Rattle.std.specs.Prelude.{◌≡◌, ◌<◌, ◌≤◌, ◌^◌, length, IfOk};
ghost use Rattle.cx_enc.specs.Whole.{Spells};
ghost use Rattle.cx_sealed.specs.Records.{authorize_layout, authorize_challenge_layout, authorize_reply_layout};
ghost use Rattle.cx_sealed.specs.Sealing.{IsSealed};
ghost use Rattle.cx_wire.specs.Logins as payload;
ghost use Rattle.cx_authorize.specs.Answers.{authorizer_of, IsAuthorizer, IsChallenge, IsReply};
ghost use Rattle.cx_authorize.specs.Passing.{challenge_sealed, reply_sealed, session_sealed};

use crate::judging::raised;
use cx_base::{Blob, Duplicate};
use cx_enc::{TicketBlob, write_whole};
use cx_journal::KeyKind;
use cx_login::HeldTicket;
use cx_sealed::{
    Authorize, AuthorizeChallenge, AuthorizeReply, seal_authorize, seal_authorize_challenge,
    seal_authorize_reply,
};
use cx_steps::{SealEntry, SealMark};
use cx_wire::{Authorizer, put_authorize_challenge, put_authorize_reply, put_authorizer};
use std::alloc::{AllocError, Global};

// The bytes of the authorizer of a held ticket, for this global id.
pub(crate) fn authorizer_bytes(
    alloc: Global,
    held: &HeldTicket,
    gid: u64,
    shown: &Authorize,
) -> Result<Blob, AllocError>
    ensures { IfOk result (IsAuthorizer held.now gid shown.now) }
{
    let session = held.session;
    let authorize = sealed_authorize(alloc, &session, shown)?;
    let authorizer = authorizer_of(alloc, held, gid, authorize)?;
    written_authorizer(alloc, &authorizer)
}

fn sealed_authorize(
    alloc: Global,
    session: &[u8; 16],
    shown: &Authorize,
) -> Result<Blob, AllocError>
    ensures sealed { IfOk result (IsSealed authorize_layout.form session.now shown.now) }
    ensures short { IfOk result (λ sealed. length sealed < 2 ^ 32) }
{
    let sealed = seal_authorize(alloc, session, shown)?;
    Ok(sealed)
}

fn authorizer_of(
    alloc: Global,
    held: &HeldTicket,
    gid: u64,
    authorize: Blob,
) -> Result<Authorizer, AllocError>
    ensures authorizer { IfOk result (λ shown. shown ≡ authorizer_of held.now gid authorize) }
    ensures short { IfOk result (λ shown. length shown.ticket.blob < 2 ^ 32) }
{
    let blob = held.blob.copy(alloc)?;
    Ok(Authorizer {
        gid,
        service: held.service,
        ticket: TicketBlob {
            generation: held.generation,
            blob,
        },
        authorize,
    })
}

#[tactic(auto, using(cx_login::proofs::Put::put_spells))]
fn written_authorizer(alloc: Global, authorizer: &Authorizer) -> Result<Blob, AllocError>
    requires ticket { length authorizer.now.ticket.blob < 2 ^ 32 }
    requires authorize { length authorizer.now.authorize < 2 ^ 32 }
    ensures { IfOk result (λ bytes. Spells payload.authorizer_layout.form bytes authorizer.now) }
{
    let mut bytes = Blob::new(alloc);
    put_authorizer(alloc, &mut bytes, authorizer)?;
    Ok(bytes)
}

// The bytes of a challenge under a session key.
pub(crate) fn challenge_bytes(
    alloc: Global,
    session: &[u8; 16],
    challenge: u64,
) -> Result<Blob, AllocError>
    ensures spelled { IfOk result (IsChallenge session.now challenge) }
    ensures short { IfOk result (λ bytes. length bytes < 2 ^ 32) }
{
    let sealed = sealed_challenge(alloc, session, challenge)?;
    written_challenge(alloc, &cx_wire::AuthorizeChallenge { sealed })
}

fn sealed_challenge(alloc: Global, session: &[u8; 16], challenge: u64) -> Result<Blob, AllocError>
    ensures sealed { IfOk result (IsSealed authorize_challenge_layout.form session.now (record { challenge = challenge })) }
    ensures short { IfOk result (λ sealed. length sealed ≤ 1048592) }
{
    let sealed = seal_authorize_challenge(alloc, session, &AuthorizeChallenge { challenge })?;
    Ok(sealed)
}

#[tactic(auto, using(cx_login::proofs::Put::put_spells, crate::proofs::Short::short_challenge))]
fn written_challenge(
    alloc: Global,
    challenge: &cx_wire::AuthorizeChallenge,
) -> Result<Blob, AllocError>
    requires { length challenge.now.sealed ≤ 1048592 }
    ensures spelled { IfOk result (λ bytes. Spells payload.authorize_challenge_layout.form bytes challenge.now) }
    ensures short { IfOk result (λ bytes. length bytes < 2 ^ 32) }
{
    let mut bytes = Blob::new(alloc);
    put_authorize_challenge(alloc, &mut bytes, challenge)?;
    Ok(bytes)
}

// The bytes of the reply to a nonce under a session key, with the secret of the connection.
pub(crate) fn reply_bytes(
    alloc: Global,
    session: &[u8; 16],
    nonce: u64,
    secret: &[u8; 64],
) -> Result<Blob, AllocError>
    ensures spelled { IfOk result (IsReply session.now nonce secret.now) }
    ensures short { IfOk result (λ bytes. length bytes < 2 ^ 32) }
{
    let reply = AuthorizeReply {
        nonce_plus_one: raised(nonce),
        secret: *secret,
    };
    let sealed = sealed_reply(alloc, session, &reply)?;
    written_reply(alloc, &cx_wire::AuthorizeReply { sealed })
}

fn sealed_reply(
    alloc: Global,
    session: &[u8; 16],
    reply: &AuthorizeReply,
) -> Result<Blob, AllocError>
    ensures sealed { IfOk result (IsSealed authorize_reply_layout.form session.now reply.now) }
    ensures short { IfOk result (λ sealed. length sealed ≤ 1048592) }
{
    let sealed = seal_authorize_reply(alloc, session, reply)?;
    Ok(sealed)
}

#[tactic(auto, using(cx_login::proofs::Put::put_spells, crate::proofs::Short::short_reply))]
fn written_reply(alloc: Global, reply: &cx_wire::AuthorizeReply) -> Result<Blob, AllocError>
    requires { length reply.now.sealed ≤ 1048592 }
    ensures spelled { IfOk result (λ bytes. Spells payload.authorize_reply_layout.form bytes reply.now) }
    ensures short { IfOk result (λ bytes. length bytes < 2 ^ 32) }
{
    let mut bytes = Blob::new(alloc);
    put_authorize_reply(alloc, &mut bytes, reply)?;
    Ok(bytes)
}

// That an authorizer's own part was sealed under a session key, as an entry of the log.
pub(crate) fn authorize_sealed(
    alloc: Global,
    session: &[u8; 16],
    shown: &Authorize,
) -> Result<SealEntry, AllocError>
    ensures { IfOk result (λ entry. entry ≡ session_sealed session.now (authorize_layout.form.text shown.now)) }
{
    let content = write_whole(alloc, shown)?;
    Ok(sealed_entry(session, content))
}

// That a challenge was sealed under a session key, as an entry of the log.
pub(crate) fn challenge_sealed(
    alloc: Global,
    session: &[u8; 16],
    challenge: u64,
) -> Result<SealEntry, AllocError>
    ensures { IfOk result (λ entry. entry ≡ challenge_sealed session.now challenge) }
{
    let content = write_whole(alloc, &AuthorizeChallenge { challenge })?;
    Ok(sealed_entry(session, content))
}

// The same of the reply to a nonce, with the secret of the connection.
pub(crate) fn reply_sealed(
    alloc: Global,
    session: &[u8; 16],
    nonce: u64,
    secret: &[u8; 64],
) -> Result<SealEntry, AllocError>
    ensures { IfOk result (λ entry. entry ≡ reply_sealed session.now nonce secret.now) }
{
    let reply = AuthorizeReply {
        nonce_plus_one: raised(nonce),
        secret: *secret,
    };
    let content = write_whole(alloc, &reply)?;
    Ok(sealed_entry(session, content))
}

// A content that was sealed under a session key.
fn sealed_entry(session: &[u8; 16], content: Blob) -> SealEntry
    ensures { result ≡ session_sealed session.now content }
{
    SealEntry::Sealed(SealMark {
        key: *session,
        kind: KeyKind::Session,
        content,
    })
}

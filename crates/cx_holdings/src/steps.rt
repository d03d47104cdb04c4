//! The steps of a login, with the monitor's payloads read as the rules read them.

ghost use Rattle.std.specs.Prelude.{◌≡◌, ◌<◌, ◌^◌, length, IfOk};
ghost use Rattle.cx_enc.specs.Whole.{Spells};
ghost use Rattle.cx_holdings.specs.Steps.{IsAnswerTo, IsOpenedBy};
ghost use Rattle.cx_rules.specs.Payloads.{whole};
ghost use Rattle.cx_wire.specs.Logins.{login_done_layout, login_hello_layout, server_challenge_layout};

use crate::answers::Answer;
use cx_base::{Blob, Duplicate, EntityName, Items};
use cx_journal::BytesFault;
use cx_rules::{Asking, LoggedIn, LoginRefusal, opened_login};
use cx_steps::SealEntry;
use cx_wire::{LoginHello, ServerChallenge, WireRefusal, put_login_hello, read_server_challenge};
use std::alloc::{AllocError, Global};

// The bytes of a LoginHello.
#[tactic(auto, using(crate::proofs::Written::put_is, crate::proofs::Written::hello_is_short))]
pub(crate) fn login_hello(alloc: Global, name: &EntityName, gid: u64) -> Result<Blob, AllocError>
    ensures text { IfOk result (λ bytes. bytes ≡ login_hello_layout.form.text (record { name = name.now; gid = gid })) }
    ensures short { IfOk result (λ bytes. length bytes < 2 ^ 32) }
{
    let hello = LoginHello {
        name: name.copy(alloc)?,
        gid,
    };
    let mut bytes = Blob::new(alloc);
    put_login_hello(alloc, &mut bytes, &hello)?;
    Ok(bytes)
}

// Answers the ServerChallenge of this payload.
pub(crate) fn answered(
    alloc: Global,
    ask: Asking,
    payload: &[u8],
    client_challenge: u64,
) -> Result<Result<Answer, BytesFault>, AllocError>
    ensures { IfOk result (IsAnswerTo ask client_challenge (whole server_challenge_layout.form payload.now)) }
{
    match read_server_challenge(alloc, payload) {
        Ok(server) => answer(alloc, ask, payload, server, client_challenge),
        Err(refusal) => match refusal {
            WireRefusal::Malformed(place) => Ok(Err(BytesFault::Malformed(place))),
            WireRefusal::OutOfMemory => Err(AllocError),
        },
    }
}

// Answers this challenge, which the payload spells.
fn answer(
    alloc: Global,
    ask: Asking,
    payload: &[u8],
    server: ServerChallenge,
    client_challenge: u64,
) -> Result<Result<Answer, BytesFault>, AllocError>
    requires { Spells server_challenge_layout.form payload.now server }
    ensures { IfOk result (IsAnswerTo ask client_challenge (whole server_challenge_layout.form payload.now)) }
{
    match ask.challenged(alloc, payload, client_challenge) {
        Ok((_, bytes)) => Ok(Ok(Answer { server, bytes })),
        Err(refusal) => match refusal {
            LoginRefusal::Malformed(_) => unreachable!(),
            LoginRefusal::Unopened => unreachable!(),
            LoginRefusal::OutOfMemory => Err(AllocError),
        },
    }
}

// Opens the LoginDone of this payload under a client's secret.
pub(crate) fn opened(
    alloc: Global,
    secret: &[u8; 16],
    payload: &[u8],
    seals: &mut Items<SealEntry>,
) -> Result<Result<Option<LoggedIn>, BytesFault>, AllocError>
    ensures { IfOk result (IsOpenedBy secret.now (whole login_done_layout.form payload.now) seals.old seals.new) }
{
    match opened_login(alloc, secret, payload, seals) {
        Ok(login) => Ok(Ok(Some(login))),
        Err(refusal) => match refusal {
            LoginRefusal::Malformed(place) => Ok(Err(BytesFault::Malformed(place))),
            LoginRefusal::Unopened => Ok(Ok(None)),
            LoginRefusal::OutOfMemory => Err(AllocError),
        },
    }
}

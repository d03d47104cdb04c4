//! The payloads of cephx in frames of authentication.

use crate::answered::{Answered, Refused, answered, copied};
use crate::bounds::fits_blob_field;
use crate::shown::{Hex, Ticket, Tickets};
use cx_base::{Blob, Duplicate};
use cx_wire::{
    put_authenticate, put_authorize_challenge, put_authorize_reply, put_authorizer, put_login_done,
    put_login_hello, put_server_challenge, read_authenticate, read_authorize_challenge,
    read_authorize_reply, read_authorizer, read_login_done, read_login_hello,
    read_server_challenge,
};
use std::alloc::Global;

/// What bytes of the kind of this name mean.
pub fn login(alloc: Global, kind: &str, bytes: &[u8]) -> Result<Answered, Refused> {
    match kind {
        "login-hello" => login_hello(alloc, bytes),
        "server-challenge" => server_challenge(alloc, bytes),
        "authenticate" => authenticate(alloc, bytes),
        "login-done" => login_done(alloc, bytes),
        "authorizer" => authorizer(alloc, bytes),
        "authorize-challenge" => authorize_challenge(alloc, bytes),
        "authorize-reply" => authorize_reply(alloc, bytes),
        _ => Err(Refused::NoKind),
    }
}

fn login_hello(alloc: Global, bytes: &[u8]) -> Result<Answered, Refused> {
    answered!(
        alloc,
        x = copied(alloc, read_login_hello(alloc, bytes))?,
        put_login_hello,
        "name {} gid {}",
        x.name,
        x.gid
    )
}

fn server_challenge(alloc: Global, bytes: &[u8]) -> Result<Answered, Refused> {
    answered!(
        alloc,
        x = read_server_challenge(alloc, bytes)?,
        put_server_challenge,
        "challenge {}",
        x.challenge
    )
}

fn authenticate(alloc: Global, bytes: &[u8]) -> Result<Answered, Refused> {
    let x = copied(alloc, read_authenticate(alloc, bytes))?;
    if x.version != 2 && x.version != 3 {
        return Err(Refused::Unfit);
    }
    fits_blob_field(&x.old_ticket.blob)?;
    answered!(
        alloc,
        x = x,
        put_authenticate,
        "version {} client_challenge {} key {} old_ticket {} other_keys {}",
        x.version,
        x.client_challenge,
        x.key,
        Ticket(&x.old_ticket),
        x.other_keys
    )
}

fn login_done(alloc: Global, bytes: &[u8]) -> Result<Answered, Refused> {
    answered!(
        alloc,
        x = read_login_done(alloc, bytes)?.copy(alloc)?,
        put_login_done,
        "tickets{} connection_secret {}",
        Tickets(&x.tickets),
        Hex(x.connection_secret.bytes())
    )
}

fn authorizer(alloc: Global, bytes: &[u8]) -> Result<Answered, Refused> {
    let x = copied(alloc, read_authorizer(alloc, bytes))?;
    fits_blob_field(&x.ticket.blob)?;
    fits_blob_field(&x.authorize)?;
    answered!(
        alloc,
        x = x,
        put_authorizer,
        "gid {} service {} ticket {} authorize {}",
        x.gid,
        x.service,
        Ticket(&x.ticket),
        Hex(x.authorize.bytes())
    )
}

fn authorize_challenge(alloc: Global, bytes: &[u8]) -> Result<Answered, Refused> {
    let x = copied(alloc, read_authorize_challenge(alloc, bytes))?;
    fits_blob_field(&x.sealed)?;
    answered!(
        alloc,
        x = x,
        put_authorize_challenge,
        "sealed {}",
        Hex(x.sealed.bytes())
    )
}

fn authorize_reply(alloc: Global, bytes: &[u8]) -> Result<Answered, Refused> {
    let x = copied(alloc, read_authorize_reply(alloc, bytes))?;
    fits_blob_field(&x.sealed)?;
    answered!(
        alloc,
        x = x,
        put_authorize_reply,
        "sealed {}",
        Hex(x.sealed.bytes())
    )
}

//! The payloads of control frames, by the names of their tags.

use crate::answered::{Answered, Refused, answered, copied};
use crate::bounds::{fits_blob_field, is_few, is_reading};
use crate::shown::{Hex, Numbers, ShownAddr};
use cx_base::Blob;
use cx_control::{
    Hello, put_ack, put_auth_bad_method, put_auth_done, put_auth_reply_more, put_auth_request,
    put_auth_request_more, put_auth_signature, put_client_ident, put_ident_missing_features,
    put_keepalive2, put_keepalive2_ack, put_payload, put_server_ident, put_session_reconnect,
    put_session_reconnect_ok, put_session_reset, put_session_retry, put_session_retry_global,
    put_wait, read_ack, read_auth_bad_method, read_auth_done, read_auth_reply_more,
    read_auth_request, read_auth_request_more, read_auth_signature, read_client_ident,
    read_ident_missing_features, read_keepalive2, read_keepalive2_ack, read_payload,
    read_server_ident, read_session_reconnect, read_session_reconnect_ok, read_session_reset,
    read_session_retry, read_session_retry_global, read_wait,
};
use std::alloc::Global;

/// What bytes of the kind of this name mean.
pub fn control(alloc: Global, kind: &str, bytes: &[u8]) -> Result<Answered, Refused> {
    match kind {
        "hello" => hello(alloc, bytes),
        "auth-request" => auth_request(alloc, bytes),
        "auth-bad-method" => auth_bad_method(alloc, bytes),
        "auth-reply-more" => auth_reply_more(alloc, bytes),
        "auth-request-more" => auth_request_more(alloc, bytes),
        "auth-done" => auth_done(alloc, bytes),
        "auth-signature" => auth_signature(alloc, bytes),
        "client-ident" => client_ident(alloc, bytes),
        "server-ident" => server_ident(alloc, bytes),
        "ident-missing-features" => ident_missing_features(alloc, bytes),
        "session-reconnect" => session_reconnect(alloc, bytes),
        _ => upkeep(alloc, kind, bytes),
    }
}

fn upkeep(alloc: Global, kind: &str, bytes: &[u8]) -> Result<Answered, Refused> {
    match kind {
        "session-reset" => session_reset(alloc, bytes),
        "session-retry" => session_retry(alloc, bytes),
        "session-retry-global" => session_retry_global(alloc, bytes),
        "session-reconnect-ok" => session_reconnect_ok(alloc, bytes),
        "wait" => wait(alloc, bytes),
        "keepalive2" => keepalive2(alloc, bytes),
        "keepalive2-ack" => keepalive2_ack(alloc, bytes),
        "ack" => ack(alloc, bytes),
        _ => Err(Refused::NoKind),
    }
}

fn hello(alloc: Global, bytes: &[u8]) -> Result<Answered, Refused> {
    answered!(
        alloc,
        x = read_payload::<Hello>(alloc, bytes)?,
        put_payload,
        "kind {} addr {}",
        x.kind,
        ShownAddr(&x.addr)
    )
}

fn auth_request(alloc: Global, bytes: &[u8]) -> Result<Answered, Refused> {
    let x = copied(alloc, read_auth_request(alloc, bytes))?;
    is_few(&x.modes)?;
    fits_blob_field(&x.payload)?;
    answered!(
        alloc,
        x = x,
        put_auth_request,
        "method {} modes{} payload {}",
        x.method,
        Numbers(x.modes.all()),
        Hex(x.payload.bytes())
    )
}

fn auth_bad_method(alloc: Global, bytes: &[u8]) -> Result<Answered, Refused> {
    answered!(
        alloc,
        x = read_auth_bad_method(alloc, bytes)?,
        put_auth_bad_method,
        "method {} result {}",
        x.method,
        x.result
    )
}

fn auth_reply_more(alloc: Global, bytes: &[u8]) -> Result<Answered, Refused> {
    let x = copied(alloc, read_auth_reply_more(alloc, bytes))?;
    fits_blob_field(&x.payload)?;
    answered!(
        alloc,
        x = x,
        put_auth_reply_more,
        "payload {}",
        Hex(x.payload.bytes())
    )
}

fn auth_request_more(alloc: Global, bytes: &[u8]) -> Result<Answered, Refused> {
    let x = copied(alloc, read_auth_request_more(alloc, bytes))?;
    fits_blob_field(&x.payload)?;
    answered!(
        alloc,
        x = x,
        put_auth_request_more,
        "payload {}",
        Hex(x.payload.bytes())
    )
}

fn auth_done(alloc: Global, bytes: &[u8]) -> Result<Answered, Refused> {
    let x = copied(alloc, read_auth_done(alloc, bytes))?;
    fits_blob_field(&x.payload)?;
    answered!(
        alloc,
        x = x,
        put_auth_done,
        "gid {} mode {} payload {}",
        x.gid,
        x.mode,
        Hex(x.payload.bytes())
    )
}

fn auth_signature(alloc: Global, bytes: &[u8]) -> Result<Answered, Refused> {
    answered!(
        alloc,
        x = read_auth_signature(alloc, bytes)?,
        put_auth_signature,
        "signature {}",
        Hex(&x.signature)
    )
}

fn client_ident(alloc: Global, bytes: &[u8]) -> Result<Answered, Refused> {
    answered!(
        alloc,
        x = read_client_ident(alloc, bytes)?,
        put_client_ident,
        "addr {} target {} gid {} global_seq {} supported {} required {} flags {} cookie {}",
        ShownAddr(&x.addr),
        ShownAddr(&x.target),
        x.gid,
        x.global_seq,
        x.supported,
        x.required,
        x.flags,
        x.cookie
    )
}

fn server_ident(alloc: Global, bytes: &[u8]) -> Result<Answered, Refused> {
    answered!(
        alloc,
        x = read_server_ident(alloc, bytes)?,
        put_server_ident,
        "addr {} gid {} global_seq {} supported {} required {} flags {} cookie {}",
        ShownAddr(&x.addr),
        x.gid,
        x.global_seq,
        x.supported,
        x.required,
        x.flags,
        x.cookie
    )
}

fn ident_missing_features(alloc: Global, bytes: &[u8]) -> Result<Answered, Refused> {
    answered!(
        alloc,
        x = read_ident_missing_features(alloc, bytes)?,
        put_ident_missing_features,
        "features {}",
        x.features
    )
}

fn session_reconnect(alloc: Global, bytes: &[u8]) -> Result<Answered, Refused> {
    answered!(
        alloc,
        x = read_session_reconnect(alloc, bytes)?,
        put_session_reconnect,
        "addr {} client_cookie {} server_cookie {} global_seq {} connect_seq {} msg_seq {}",
        ShownAddr(&x.addr),
        x.client_cookie,
        x.server_cookie,
        x.global_seq,
        x.connect_seq,
        x.msg_seq
    )
}

fn session_reset(alloc: Global, bytes: &[u8]) -> Result<Answered, Refused> {
    answered!(
        alloc,
        x = read_session_reset(alloc, bytes)?,
        put_session_reset,
        "full {}",
        x.full
    )
}

fn session_retry(alloc: Global, bytes: &[u8]) -> Result<Answered, Refused> {
    answered!(
        alloc,
        x = read_session_retry(alloc, bytes)?,
        put_session_retry,
        "connect_seq {}",
        x.connect_seq
    )
}

fn session_retry_global(alloc: Global, bytes: &[u8]) -> Result<Answered, Refused> {
    answered!(
        alloc,
        x = read_session_retry_global(alloc, bytes)?,
        put_session_retry_global,
        "global_seq {}",
        x.global_seq
    )
}

fn session_reconnect_ok(alloc: Global, bytes: &[u8]) -> Result<Answered, Refused> {
    answered!(
        alloc,
        x = read_session_reconnect_ok(alloc, bytes)?,
        put_session_reconnect_ok,
        "seq {}",
        x.seq
    )
}

fn wait(alloc: Global, bytes: &[u8]) -> Result<Answered, Refused> {
    answered!(alloc, x = read_wait(alloc, bytes)?, put_wait, "nothing")
}

fn keepalive2(alloc: Global, bytes: &[u8]) -> Result<Answered, Refused> {
    let x = read_keepalive2(alloc, bytes)?;
    is_reading(x.time)?;
    answered!(alloc, x = x, put_keepalive2, "time {}", x.time)
}

fn keepalive2_ack(alloc: Global, bytes: &[u8]) -> Result<Answered, Refused> {
    let x = read_keepalive2_ack(alloc, bytes)?;
    is_reading(x.time)?;
    answered!(alloc, x = x, put_keepalive2_ack, "time {}", x.time)
}

fn ack(alloc: Global, bytes: &[u8]) -> Result<Answered, Refused> {
    answered!(alloc, x = read_ack(alloc, bytes)?, put_ack, "seq {}", x.seq)
}

//! The payloads of control frames (msgr2 protocol), one type and two calls for each tag.
#![tactic(auto)]

mod auth;
mod bad_method;
mod copies;
mod hello;
mod idents;
mod payloads;
mod reconnects;
mod refusals;
mod upkeep;

pub use auth::{
    AuthDone, AuthReplyMore, AuthRequest, AuthRequestMore, AuthSignature, put_auth_done,
    put_auth_reply_more, put_auth_request, put_auth_request_more, put_auth_signature,
    read_auth_done, read_auth_reply_more, read_auth_request, read_auth_request_more,
    read_auth_signature,
};
pub use bad_method::{AuthBadMethod, put_auth_bad_method, read_auth_bad_method};
pub use hello::Hello;
pub use idents::{
    ClientIdent, IdentMissingFeatures, ServerIdent, put_client_ident, put_ident_missing_features,
    put_server_ident, read_client_ident, read_ident_missing_features, read_server_ident,
};
pub use payloads::{WritesWhole, put_payload, put_payload_whole, read_payload, read_payload_part};
pub use reconnects::{
    SessionReconnect, SessionReconnectOk, SessionReset, SessionRetry, SessionRetryGlobal,
    put_session_reconnect, put_session_reconnect_ok, put_session_reset, put_session_retry,
    put_session_retry_global, read_session_reconnect, read_session_reconnect_ok,
    read_session_reset, read_session_retry, read_session_retry_global,
};
pub use refusals::WireRefusal;
pub use upkeep::{
    Ack, Keepalive2, Keepalive2Ack, Wait, put_ack, put_keepalive2, put_keepalive2_ack, put_wait,
    read_ack, read_keepalive2, read_keepalive2_ack, read_wait,
};

// Each public type may be sent to another thread and shared with one.
fn is_sendable<T: Send + Sync>() {}

fn all_are_sendable() {
    is_sendable::<(Hello, AuthRequest, AuthBadMethod, AuthReplyMore)>();
    is_sendable::<(AuthRequestMore, AuthDone, AuthSignature, ClientIdent)>();
    is_sendable::<(ServerIdent, IdentMissingFeatures, SessionReconnect)>();
    is_sendable::<(SessionReset, SessionRetry, SessionRetryGlobal)>();
    is_sendable::<(SessionReconnectOk, Wait, Keepalive2, Keepalive2Ack)>();
    is_sendable::<(Ack, WireRefusal)>();
}

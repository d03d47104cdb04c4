//! The payloads of cephx in frames of authentication ("detailed cephx protocol"), and the headers and bodies of messages.
#![tactic(auto)]

mod answers;
mod authorizers;
mod bodies;
mod contents;
mod copies;
mod headers;
mod logins;
mod operations;
mod refusals;
mod tickets;

pub use answers::{Answer, put_answer, read_answer};
pub use authorizers::{
    AuthorizeChallenge, AuthorizeReply, Authorizer, put_authorize_challenge, put_authorize_reply,
    put_authorizer, read_authorize_challenge, read_authorize_reply, read_authorizer,
};
pub use bodies::{Reply, Request, put_reply, put_request, read_reply, read_request};
pub use cx_control::WireRefusal;
pub use headers::{ANSWER, Header, OPERATION, REPLY, REQUEST, put_header, take_empty};
pub use logins::{
    Authenticate, LoginDone, LoginHello, ServerChallenge, put_authenticate, put_login_done,
    put_login_hello, put_server_challenge, read_authenticate, read_login_done, read_login_hello,
    read_server_challenge,
};
pub use operations::{put_operation, read_operation};
pub use refusals::BodyRefusal;
pub use tickets::TicketPart;

// Each public type may be sent to another thread and shared with one.
fn is_sendable<T: Send + Sync>() {}

fn all_are_sendable() {
    is_sendable::<(LoginHello, ServerChallenge, Authenticate)>();
    is_sendable::<(LoginDone, TicketPart, Authorizer)>();
    is_sendable::<(AuthorizeChallenge, AuthorizeReply, Header)>();
    is_sendable::<(Request, Reply, Answer, BodyRefusal)>();
}

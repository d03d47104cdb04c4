//! The records that cephx seals, each opened exactly as it was sealed, and the proof of a login.
#![tactic(auto)]

mod authorize;
mod authorize_challenge;
mod authorize_reply;
mod connection_secret;
mod kinds;
mod login_proof;
mod opening;
mod records;
mod refusals;
mod rotating_reply;
mod seal_key;
mod sealed_record;
mod service_ticket;
mod ticket_info;
mod unsealed;
mod unsealing;

pub use authorize::Authorize;
pub use authorize_challenge::AuthorizeChallenge;
pub use authorize_reply::AuthorizeReply;
pub use connection_secret::ConnectionSecret;
pub use kinds::record_laws;
pub use login_proof::proof;
pub use opening::{
    open_authorize, open_authorize_challenge, open_authorize_reply, open_connection_secret,
    open_rotating_reply, open_service_ticket, open_ticket_info, seal_authorize,
    seal_authorize_challenge, seal_authorize_reply, seal_connection_secret, seal_rotating_reply,
    seal_service_ticket, seal_ticket_info, sealed_connection_secret, sealed_service_ticket,
    sealed_ticket_info,
};
pub use refusals::SealedRefusal;
pub use rotating_reply::RotatingReply;
pub use seal_key::SealKey;
pub use sealed_record::SealedRecord;
pub use service_ticket::ServiceTicket;
pub use ticket_info::TicketInfo;
pub use unsealed::Unsealed;
pub use unsealing::{
    unseal_authorize, unseal_authorize_challenge, unseal_authorize_reply,
    unseal_connection_secret_by, unseal_rotating_reply, unseal_service_ticket,
    unseal_ticket_info_by,
};

// What crates above name through this one, and so needn't list.
pub use cx_rotate::Generations;

// Each public type may be sent to another thread and shared with one.
fn is_sendable<T: Send + Sync>() {}

fn all_are_sendable() {
    is_sendable::<ServiceTicket>();
    is_sendable::<TicketInfo>();
    is_sendable::<Authorize>();
    is_sendable::<AuthorizeChallenge>();
    is_sendable::<AuthorizeReply>();
    is_sendable::<RotatingReply>();
    is_sendable::<ConnectionSecret>();
    is_sendable::<SealKey>();
    is_sendable::<SealedRecord>();
    is_sendable::<SealedRefusal>();
    is_sendable::<Unsealed<ServiceTicket>>();
}

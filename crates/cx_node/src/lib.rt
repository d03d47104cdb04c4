//! What a step of any node is made of: the table of its links, rows and their effects, control frames and payloads.
//! A step of any node: links that open, bytes that come and turns, whatever its links are and whatever it has of its own; and what the ends of a
//! link do alike: control frames that are put on it, keepalives, the peer's signature, rows and refusals.
//! Messages and acknowledgements on a secured link: what a frame with a message says, and how one, or several in one piece, is sent.
//! Links of several kinds at one node, as definitions and lemmas: rows and turns on a link of a kind as those of the node.
#![tactic(auto)]

mod came;
mod carrying;
mod coming;
mod controls;
mod events;
mod frames;
mod greetings;
mod keeping;
mod laws;
mod links;
mod making;
mod messages_sending;
mod moments;
mod numbered;
mod opening;
mod payloads;
mod places;
mod reading;
mod requests;
mod rows;
mod searching;
mod signatures;
mod steps_making;
mod steps_rows;
mod steps_sending;
mod turner;
mod turns;
mod upkeep;

pub use carrying::{Carried, carried_out, enters, loses};
pub use controls::{bad_method, control};
pub use laws::node_laws;
pub use links::Links;
pub use making::{denies, denies_for, goes_on, refused_entry, refuses, refuses_bytes, with_opened};
pub use numbered::Numbered;
pub use payloads::{due, payload, payload_part, whole, whole_part};
pub use rows::Row;
// What crates above name through this one, and so needn't list.
pub use came::Came;
pub use coming::{Feeds, comes};
pub use cx_rules::Body;
pub use events::{link_in, wanting};
pub use greetings::{SentBanner, send_banner, send_hello};
pub use moments::Moment;
pub use opening::{opens, stands, unopened};
pub use requests::request_fault;
pub use signatures::checked;
pub use steps_making::{entered_before, goes_on_unchanged, handles, unless_refused};
pub use steps_rows::{NoRow, NodeRow};
pub use steps_sending::{SentPlain, send_plain, send_secure};
pub use turner::Turner;
pub use turns::{carries, turn};
pub use upkeep::{is_keepalive, upkept};
// What crates above name through this one, and so needn't list.
pub use cx_link::{AheadFrame, LinkRefusal, SealedAhead, SecureLink, SentFrame};
pub use frames::message_frame;
pub use messages_sending::{seal_message, send_acknowledgement, send_frames, send_message};
pub use reading::{body_in, header_in, reply_in, request_in};

// Each public type may be sent to another thread and shared with one, where its links may.
fn is_sendable<T: Send + Sync>() {}

fn all_are_sendable<L: Numbered + Send + Sync>() {
    is_sendable::<Links<L>>();
    is_sendable::<Row<L>>();
    is_sendable::<Carried<L>>();
}

fn steps_types_are_sendable<L: Send + Sync, C: Send + Sync>() {
    is_sendable::<Came<L, C>>();
    is_sendable::<NodeRow<L, C>>();
    is_sendable::<NoRow>();
    is_sendable::<SentBanner>();
    is_sendable::<SentPlain>();
}

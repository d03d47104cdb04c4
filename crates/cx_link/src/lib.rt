//! One end of a link: its banner, its plain frames and, behind authentication, its secure ones, both ways.
#![tactic(auto)]

mod banner;
pub mod code;
mod links;
mod plain;
mod refusals;
mod secure;
mod sending;
mod signing;
pub mod tag;
mod turns;

pub use links::{
    AheadFrame, BannerLink, Checked, Finished, PlainLink, SecureLink, SentFrame, Signing,
};
pub use refusals::LinkRefusal;
pub use sending::{own_banner, plain_bytes};
pub use turns::{BannerTurn, LinkTurn};
// What crates above name through this one, and so needn't list.
pub use cx_rules::SealedAhead;

// Each public type may be sent to another thread and shared with one.
fn is_sendable<T: Send + Sync>() {}

fn all_are_sendable() {
    is_sendable::<BannerLink>();
    is_sendable::<PlainLink>();
    is_sendable::<SecureLink>();
    is_sendable::<Signing>();
    is_sendable::<Checked>();
    is_sendable::<SentFrame>();
    is_sendable::<AheadFrame>();
    is_sendable::<Finished>();
    is_sendable::<BannerTurn>();
    is_sendable::<LinkTurn<PlainLink>>();
    is_sendable::<LinkTurn<SecureLink>>();
    is_sendable::<LinkRefusal>();
}

//! Galois/Counter Mode with AES-128, after SP 800-38D, for texts without additional data: GHASH (6.3) with sums over many of
//! its products, the counter mode, and both sealed together.
#![tactic(auto)]

mod blocks;
mod counter;
mod gcm_key;
mod hashing;
mod multiples;
mod polynomials;
mod powers;
mod sealing;

pub use blocks::{number, spelled};
pub use gcm_key::{BadTag, GcmKey, MAX_BYTES};
pub use multiples::Multiples;
pub use powers::Powers;
pub use sealing::{one_plain_text, open_in_place, seal_in_place};

//! The sealed envelope of a content: version and magic number in front, PKCS#7 behind, encrypted by AES-128 in cipher
//! block chaining with a fixed initial vector.
#![tactic(auto)]

mod chain;
mod envelope;
mod opening;
mod refusals;
mod sealing;

pub use opening::{open, opening_laws, opens_one_content};
pub use refusals::{OpenRefusal, SealRefusal};
pub use sealing::{seal, seal_16};

// What crates above name through this one, and so needn't list.
pub use cx_aes::Schedule;

/// The bytes of the longest content.
pub const LONGEST: usize = 1_048_576;

//! The digests of the messenger: the check sum CRC-32C of frames, and the message code HMAC with
//! SHA-256 of signatures. Neither refuses anything, and a key of signatures alone takes memory.
#![tactic(auto)]

mod checksum;
mod message_code;
mod signing_key;
mod tables;
mod whole_text;

pub use checksum::{crc32c, crc32c_goes_on};
pub use message_code::Mac;
pub use signing_key::SigningKey;
pub use whole_text::mac;

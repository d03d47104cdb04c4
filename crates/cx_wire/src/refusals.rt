//! Why the body of a message is refused.

use cx_control::WireRefusal;
use thiserror::Error;

/// Why the body of a message of type 17 or 18 is refused.
#[derive(Clone, Copy, Debug, PartialEq, Eq, Error)]
pub enum BodyRefusal {
    /// The blob of the body is whole, and the code in its first two bytes is none of a body's.
    #[error("the body has the code {0}")]
    OtherCode(u16),
    /// The bytes spell no body: the first field that can't be read begins at this place, or the body ends there and bytes are left
    /// over.
    #[error("malformed at byte {0}")]
    Malformed(usize),
    /// Memory was wanting.
    #[error("out of memory")]
    OutOfMemory,
}

//! Why a stream is given up.

use cx_frame::{BannerRefusal, FrameRefusal};
use cx_secure::SecureRefusal;
use thiserror::Error;

/// What refused the next bytes of a stream. All but want of memory is the peer's doing, or that of one who changed the bytes on their way;
/// the link is to be shut.
#[derive(Clone, Copy, Debug, PartialEq, Eq, Error)]
pub enum StreamFault {
    /// The banner was refused.
    #[error("{0}")]
    Banner(BannerRefusal),
    /// A plain frame was refused.
    #[error("{0}")]
    Plain(FrameRefusal),
    /// A secure frame was refused.
    #[error("{0}")]
    Secure(SecureRefusal),
}

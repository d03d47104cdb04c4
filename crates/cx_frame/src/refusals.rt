//! Why banners and frames are refused.

use std::alloc::AllocError;
use thiserror::Error;

/// Why a peer's banner is refused.
#[derive(Clone, Copy, Debug, PartialEq, Eq, Error)]
pub enum BannerRefusal {
    /// It is no banner: it differs from the fixed text at this place, or its length, at place 8, is below 16 or above 256.
    #[error("no banner: byte {0} differs")]
    BadBanner(usize),
    /// The peer asks for features that we don't have, which these bits are, or lacks the one that we ask for, bit 0.
    #[error("features differ: {0}")]
    Features(u64),
}

/// Why a frame is refused, or isn't written.
#[derive(Clone, Copy, Debug, PartialEq, Eq, Error)]
pub enum FrameRefusal {
    /// A check sum isn't the one of the bytes that it covers.
    #[error("a check sum is wrong")]
    BadCrc,
    /// The check sums are right, and the peer broke the format of frames.
    #[error("the frame is badly shaped")]
    BadShape,
    /// The segments have so many bytes together, which is above the limit.
    #[error("the segments have {0} bytes")]
    TooLong(u64),
    /// The peer gave the frame up while it sent it.
    #[error("the frame was aborted")]
    Aborted,
    /// Memory was wanting.
    #[error("out of memory")]
    OutOfMemory,
}

impl From<AllocError> for FrameRefusal {
    ghost use Rattle.std.specs.Prelude.{◌≡◌};
    ghost use Rattle.cx_frame.specs.declared.refusals.FrameRefusal.TheVariants.{OutOfMemory};

    ghost from_gives = { λ _ refusal. refusal ≡ OutOfMemory };

    fn from(_error: AllocError) -> FrameRefusal {
        FrameRefusal::OutOfMemory
    }
}

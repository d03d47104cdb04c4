//! Why secure frames are refused.

use cx_frame::FrameRefusal;
use std::alloc::AllocError;
use thiserror::Error;

/// Why a secure frame is refused, or isn't written.
#[derive(Clone, Copy, Debug, PartialEq, Eq, Error)]
pub enum SecureRefusal {
    /// The counter of this direction has no number left for another part.
    #[error("the counter is spent")]
    CounterSpent,
    /// A part isn't sealed under the key of this connection and its counter.
    #[error("a tag is wrong")]
    BadTag,
    /// The part is rightly sealed, and the check sum of its preamble isn't the one of these bytes.
    #[error("a check sum is wrong")]
    BadCrc,
    /// The parts are rightly sealed, and the peer broke the format of frames.
    #[error("the frame is badly shaped")]
    BadShape,
    /// The segments have so many bytes together, which is above the limit.
    #[error("the segments have {0} bytes")]
    TooLong(u64),
    /// The peer gave the frame up while it sent it.
    #[error("the frame was aborted")]
    Aborted,
    /// Memory was wanting.
    #[error("out of memory")]
    OutOfMemory,
}

impl From<AllocError> for SecureRefusal {
    ghost use Rattle.std.specs.Prelude.{◌≡◌};
    ghost use Rattle.cx_secure.specs.declared.refusals.SecureRefusal.TheVariants.{OutOfMemory};

    ghost from_gives = { λ _ refusal. refusal ≡ OutOfMemory };

    fn from(_error: AllocError) -> SecureRefusal {
        SecureRefusal::OutOfMemory
    }
}

impl From<FrameRefusal> for SecureRefusal {
    ghost use Rattle.std.specs.Prelude.{◌≡◌};
    ghost use Rattle.cx_secure.specs.Refusing.{secured};

    ghost from_gives = { λ frame refusal. refusal ≡ secured frame };

    fn from(refusal: FrameRefusal) -> SecureRefusal {
        match refusal {
            FrameRefusal::BadCrc => SecureRefusal::BadCrc,
            FrameRefusal::BadShape => SecureRefusal::BadShape,
            FrameRefusal::TooLong(total) => SecureRefusal::TooLong(total),
            FrameRefusal::Aborted => SecureRefusal::Aborted,
            FrameRefusal::OutOfMemory => SecureRefusal::OutOfMemory,
        }
    }
}

//! Why a link is given up.

ghost use Rattle.std.specs.Prelude.{◌≡◌};
ghost use Rattle.cx_rules.specs.Fronts.{banner_fault};

use cx_frame::{BannerRefusal, FrameRefusal};
use cx_journal::BytesFault;
use cx_rules::{SecureRefusal, StreamFault};
use std::alloc::AllocError;

/// Why something isn't sent on a link, or isn't taken from it. The link is given up.
#[derive(Clone, Copy, Debug, PartialEq, Eq)]
pub enum LinkRefusal {
    /// The bytes are refused: of what comes the peer is to blame, of what is sent a counter that is spent or a frame that is too long.
    Fault(BytesFault),
    /// Memory was wanting.
    OutOfMemory,
}

impl From<AllocError> for LinkRefusal {
    ghost use Rattle.std.specs.Prelude.{◌≡◌};
    ghost use Rattle.cx_link.specs.declared.refusals.LinkRefusal.TheVariants.{OutOfMemory};

    ghost from_gives = { λ _ refusal. refusal ≡ OutOfMemory };

    fn from(_error: AllocError) -> LinkRefusal {
        LinkRefusal::OutOfMemory
    }
}

impl From<FrameRefusal> for LinkRefusal {
    ghost use Rattle.std.specs.Prelude.{◌≡◌};
    ghost use Rattle.cx_link.specs.Refusing.{plain_refusal};

    ghost from_gives = { λ frame refusal. refusal ≡ plain_refusal frame };

    fn from(refusal: FrameRefusal) -> LinkRefusal {
        match refusal {
            FrameRefusal::BadCrc => LinkRefusal::Fault(BytesFault::BadCrc),
            FrameRefusal::BadShape => LinkRefusal::Fault(BytesFault::BadShape),
            FrameRefusal::TooLong(_) => LinkRefusal::Fault(BytesFault::TooLong),
            FrameRefusal::Aborted => LinkRefusal::Fault(BytesFault::Aborted),
            FrameRefusal::OutOfMemory => LinkRefusal::OutOfMemory,
        }
    }
}

impl From<SecureRefusal> for LinkRefusal {
    ghost use Rattle.std.specs.Prelude.{◌≡◌};
    ghost use Rattle.cx_link.specs.Refusing.{secure_refusal};

    ghost from_gives = { λ frame refusal. refusal ≡ secure_refusal frame };

    fn from(refusal: SecureRefusal) -> LinkRefusal {
        match refusal {
            SecureRefusal::CounterSpent => LinkRefusal::Fault(BytesFault::CounterSpent),
            SecureRefusal::BadTag => LinkRefusal::Fault(BytesFault::BadTag),
            SecureRefusal::BadCrc => LinkRefusal::Fault(BytesFault::BadCrc),
            SecureRefusal::BadShape => LinkRefusal::Fault(BytesFault::BadShape),
            SecureRefusal::TooLong(_) => LinkRefusal::Fault(BytesFault::TooLong),
            SecureRefusal::Aborted => LinkRefusal::Fault(BytesFault::Aborted),
            SecureRefusal::OutOfMemory => LinkRefusal::OutOfMemory,
        }
    }
}

impl From<StreamFault> for LinkRefusal {
    ghost use Rattle.std.specs.Prelude.{◌≡◌};
    ghost use Rattle.cx_link.specs.Refusing.{stream_refusal};

    ghost from_gives = { λ fault refusal. refusal ≡ stream_refusal fault };

    fn from(fault: StreamFault) -> LinkRefusal {
        match fault {
            StreamFault::Banner(refusal) => LinkRefusal::Fault(banner_fault(refusal)),
            StreamFault::Plain(refusal) => LinkRefusal::from(refusal),
            StreamFault::Secure(refusal) => LinkRefusal::from(refusal),
        }
    }
}

pub(crate) fn banner_fault(refusal: BannerRefusal) -> BytesFault
    ensures { result ≡ banner_fault refusal }
{
    match refusal {
        BannerRefusal::BadBanner(_) => BytesFault::BadBanner,
        BannerRefusal::Features(bits) => BytesFault::Features(bits),
    }
}

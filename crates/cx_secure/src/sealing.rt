//! What one end of a connection holds to seal and to open.

ghost use Rattle.std.specs.Prelude.{◌<◌};
ghost use Rattle.cx_secure.specs.Parts.{IsFixed};

use crate::refusals::SecureRefusal;
use cx_frame::Preamble;
use cx_gcm::GcmKey;

/// One direction: the four fixed bytes of its nonces, and the counter of its next part.
#[derive(Clone, Copy)]
pub struct Way {
    pub(crate) fixed: [u8; 4],
    pub(crate) counter: u64,
    pub ghost four: { IsFixed fixed },
}

impl Way {
    ghost use Rattle.std.specs.Prelude.{◌≡◌, ◌+◌, ◌<◌, ◌^◌};

    // So many parts more were sealed or opened.
    pub(crate) fn raise(&mut self, parts: u64)
        requires { self.old.counter + parts < 2 ^ 64 }
        ensures { self.new ≡ record self.old { counter = self.old.counter + parts } }
    {
        self.counter += parts;
    }

    // The next part has this counter.
    pub(crate) fn go_on_at(&mut self, counter: u64)
        ensures { self.new ≡ record self.old { counter = counter } }
    {
        self.counter = counter;
    }
}

/// The head of a secure frame: its preamble, and the first 48 bytes of its first segment with their fill.
#[derive(Clone, Copy, PartialEq, Eq)]
pub struct Head {
    pub preamble: Preamble,
    pub inline: [u8; 48],
}

/// The key of a connection, made ready once, with both directions, and the refusal that ended it. It takes 2,500 bytes. It has no copy, so that
/// no two send under one nonce.
#[derive(Drop)]
pub struct Sealing {
    pub(crate) key: GcmKey,
    pub(crate) out: Way,
    pub(crate) into: Way,
    pub(crate) kept: Option<SecureRefusal>,
}

/// A frame that was sealed ahead: the counter of its first part, and the one behind its last. It has no copy, and is committed once, to a sealing
/// that still stands at its counter.
#[derive(Drop)]
pub struct SealedAhead {
    pub(crate) from: u64,
    pub(crate) next: u64,
    pub ghost rises: { from < next },
}

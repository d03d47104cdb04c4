//! What is sent on a link.

ghost use Rattle.std.specs.Prelude.{◌≡◌, IfOk};
ghost use Rattle.cx_link.specs.Refusing.{Agrees};
ghost use Rattle.cx_link.specs.Sending.{IsControl};
ghost use Rattle.cx_rules.specs.Greetings.{own_banner};
ghost use Rattle.cx_rules.specs.Secured.{plain_frame};

use crate::refusals::LinkRefusal;
use cx_base::Blob;
use cx_frame::{Banner, Frame, put_banner, put_frame};
use cx_journal::BytesFault;
use std::alloc::{AllocError, Global};

/// The segments of a plain frame have at most so many bytes together.
const MAX_PLAIN: usize = 65_536;

/// The bytes of a banner.
const BANNER: usize = 26;

/// One's own banner: REVISION_1 is supported and required.
pub fn own_banner(alloc: Global) -> Result<Blob, AllocError>
    ensures { IfOk result (λ bytes. bytes ≡ own_banner) }
{
    let mut bytes = Blob::with_room(alloc, BANNER)?;
    let banner = Banner {
        supported: 1,
        required: 1,
    };
    put_banner(alloc, &mut bytes, &banner)?;
    Ok(bytes)
}

/// The bytes of a plain frame with one segment.
pub fn plain_bytes(alloc: Global, frame: &Frame) -> Result<Blob, LinkRefusal>
    requires { IsControl frame.now }
    ensures { Agrees result (plain_frame frame.now) }
{
    let length = frame.segments.all()[0].bytes.bytes().len();
    if length > MAX_PLAIN {
        return Err(LinkRefusal::Fault(BytesFault::TooLong));
    }
    let mut bytes = Blob::new(alloc);
    put_frame(alloc, &mut bytes, frame)?;
    Ok(bytes)
}

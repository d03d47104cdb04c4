//! Reading a source to its end, within the limit.

ghost use Rattle.std.specs.Prelude.{◌≡◌, ◌≤◌, ◌<◌, ◌++◌, length, take, drop, Some, IfOk, IfErr, vec_len};
ghost use Rattle.cx_base.specs.Streams.{Rose, Gives, HasCause};
ghost use Rattle.cx_top.specs.Replays.{Gave, GaveAll};
ghost use Rattle.cx_top.specs.Inputs.{IsUnread, IsUntaken};

use cx_base::{Blob, Source};
use cx_words::MOST_BYTES;
use std::alloc::{AllocError, Global};

/// How many bytes are asked for at once.
const CHUNK: usize = 65_536;

/// Why an input was not read to its end.
#[derive(Debug, Drop)]
pub enum Unread {
    /// A call of the source failed.
    Fault,
    /// One byte more than the limit was taken.
    TooLong,
    OutOfMemory,
}

impl From<AllocError> for Unread {
    ghost use Rattle.std.specs.Prelude.{◌≡◌};
    ghost use Rattle.cx_top.specs.declared.input.Unread.TheVariants.{OutOfMemory};

    ghost from_gives = { λ _ unread. unread ≡ OutOfMemory };

    fn from(_error: AllocError) -> Unread {
        Unread::OutOfMemory
    }
}

#[tactic(auto, using(crate::proofs::Reading::gave_more, crate::proofs::Reading::past_limit))]
/// Reads the source to its end, or up to one byte more than a schedule may have.
pub fn read_all<I: Source>(alloc: Global, input: &mut I) -> Result<Blob, Unread>
    ensures all { IfOk result (GaveAll (I.left input.old) (I.left input.new)) }
    ensures short { IfOk result (λ bytes. length bytes ≤ MOST_BYTES) }
    ensures unread { IfErr result (IsUnread (I.left input.old) (I.left input.new) (I.faults input.old) (I.faults input.new)) }
    ensures later { I.faults input.old ≤ I.faults input.new }
{
    let mut all = Blob::new(alloc);
    let mut chunk = zeros(alloc, CHUNK)?;
    'read: while all.bytes().len() <= MOST_BYTES {
        let room = (MOST_BYTES + 1 - all.bytes().len()).min(CHUNK);
        let count = take_next(alloc, input, &mut chunk[..room], &mut all)?;
        if count == 0 {
            return Ok(all);
        }
    }
    Err(Unread::TooLong)
}

// Takes the source's next bytes, as many as fit this part of the buffer, and puts them behind all that it gave.
fn take_next<I: Source>(
    alloc: Global,
    input: &mut I,
    buffer: &mut [u8],
    all: &mut Blob,
) -> Result<usize, Unread>
    requires { 0 < length buffer.old }
    ensures bound { IfOk result (λ count. count ≤ length buffer.old) }
    ensures gives { IfOk result (Gives (I.left input.old) (I.left input.new) buffer.new) }
    ensures taken { IfOk result (λ count. all.new ≡ all.old ++ take count buffer.new) }
    ensures unread { IfErr result (IsUntaken (I.faults input.old) (I.faults input.new)) }
    ensures later { I.faults input.old ≤ I.faults input.new }
{
    let Ok(count) = input.pull(buffer) else {
        return Err(Unread::Fault);
    };
    all.append(alloc, &buffer[..count])?;
    Ok(count)
}

fn zeros(alloc: Global, count: usize) -> Result<Vec<u8>, AllocError>
    ensures { IfOk result (λ zeros. vec_len zeros ≡ count) }
{
    vec![in alloc; 0; count]
}

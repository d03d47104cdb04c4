//! Room for the bytes that come.

ghost use Rattle.std.specs.Prelude.{◌≡◌, ◌++◌, OnOk, OnErr};

use bytes::BytesMut;
use std::alloc::AllocError;

/// Where room is made, it is for so many bytes at least.
const ROOM: usize = 1000;

// Puts bytes behind those that are there. Room is made for more than they need, so that what comes in small pieces is seldom moved.
pub(crate) fn put_behind(into: &mut BytesMut, bytes: &[u8]) -> Result<(), AllocError>
    ensures ok { OnOk result (into.new.items ≡ into.old.items ++ bytes.now) }
    ensures err { OnErr result (into.new.items ≡ into.old.items) }
{
    if into.capacity() - into.len() < bytes.len() {
        into.reserve(bytes.len().max(ROOM))?;
    }
    into.extend_from_slice(bytes)
}

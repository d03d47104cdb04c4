//! What comes on links, and what links take.

use cx_base::Addr;

/// What comes of a wait: a link that was opened by the other side, bytes on a link and how many, the end of a link, or nothing.
#[derive(Clone, Copy, Debug, PartialEq, Eq)]
pub enum LinkEvent {
    Opened(u32),
    Bytes(u32, usize),
    Gone(u32),
    Quiet,
}

/// A call that links took: to listen at an address, to open a link of this number, to send so many bytes, to shut a link.
#[derive(Clone, Copy, Debug, PartialEq, Eq)]
pub enum LinkCall {
    Listened(Addr),
    Opened(u32, Addr),
    Sent(u32, usize),
    Shut(u32),
}

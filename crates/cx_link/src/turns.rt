//! What a turn of a link comes to.

use crate::links::{BannerLink, PlainLink};
use cx_frame::Frame;
use cx_journal::BytesFault;

/// A turn of a link that awaits the peer's banner.
#[derive(Drop)]
pub enum BannerTurn {
    /// The banner isn't all there yet.
    Waits(BannerLink),
    /// The banner was taken.
    Takes(PlainLink),
    /// The banner is refused, and the link is given up.
    Refuses(BytesFault),
}

/// A turn of a link of frames.
#[derive(Drop)]
pub enum LinkTurn<L> {
    /// The next frame isn't all there yet.
    Waits(L),
    /// A frame was taken.
    Takes(L, Frame),
    /// The next frame is refused, and the link is given up.
    Refuses(BytesFault),
}

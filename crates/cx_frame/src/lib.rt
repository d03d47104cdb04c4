//! The banner of messenger v2.1 and its plain frames, as bytes.
#![tactic(auto)]

mod announcing;
mod banner;
mod banners;
mod frame;
mod laws;
mod plain;
mod preamble;
mod preambles;
mod reading;
mod refusals;
mod sums;

pub use announcing::{preamble_bytes, preamble_of, put_preamble, total};
pub use banner::Banner;
pub use banners::{put_banner, read_banner};
pub use frame::{Frame, Segment};
pub use laws::frame_laws;
pub use plain::{put_frame, put_text};
pub use preamble::Preamble;
pub use preambles::{MAX_PLAIN, read_preamble, read_preamble_within};
pub use reading::{read_rest, rest_len};
pub use refusals::{BannerRefusal, FrameRefusal};

// What crates above name through this one, and so needn't list.
pub use cx_base::{Blob, Duplicate, Items};

// Each public type may be sent to another thread and shared with one.
fn is_sendable<T: Send + Sync>() {}

fn all_are_sendable() {
    is_sendable::<Banner>();
    is_sendable::<Preamble>();
    is_sendable::<Segment>();
    is_sendable::<Frame>();
    is_sendable::<BannerRefusal>();
    is_sendable::<FrameRefusal>();
}

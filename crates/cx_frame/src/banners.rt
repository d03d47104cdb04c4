//! Reading and writing the banner.

ghost use Rattle.std.specs.Prelude.{◌≡◌, ◌≢◌, ℕ, ◌+◌, ◌<◌, ◌≤◌, ◌^◌, List, [], ◌++◌, IfOk, IfSome, OnOk, OnErr, length};
ghost use Rattle.cx_frame.specs.Banners.{IsBanner, banner_text, bad_place, banner_at, by_features, sized};
ghost use Rattle.cx_frame.specs.declared.banner.Banner.{Banner};

use crate::banner::Banner;
use crate::refusals::BannerRefusal;
use cx_base::Blob;
use std::alloc::{AllocError, Global};

// The fixed text of a banner.
static WORD: [u8; 8] = *b"ceph v2\n";

/// Writes a banner behind some bytes, with no bytes that are skipped. Where memory is wanting, the bytes stay as they were.
#[tactic(auto, unfolding(crate::specs::Banners::banner_text))]
pub fn put_banner(alloc: Global, into: &mut Blob, banner: &Banner) -> Result<(), AllocError>
    ensures ok { OnOk result (into.new ≡ into.old ++ banner_text banner.now []) }
    ensures err { OnErr result (into.new ≡ into.old) }
{
    let s = banner.supported.to_le_bytes();
    let r = banner.required.to_le_bytes();
    into.append(
        alloc,
        &[
            b'c', b'e', b'p', b'h', b' ', b'v', b'2', b'\n', 16, 0, s[0], s[1], s[2], s[3], s[4],
            s[5], s[6], s[7], r[0], r[1], r[2], r[3], r[4], r[5], r[6], r[7],
        ],
    )
}

/// Reads the banner at the front of some bytes, and tells its length, with the bytes that are skipped. It wants no memory.
pub fn read_banner(bytes: &[u8]) -> Result<Option<(Banner, usize)>, BannerRefusal>
    // What is read stands there.
    ensures found { IfOk result (λ read. IfSome read (λ x. IsBanner bytes.now x.0 x.1)) }
    // What stands there is read, whatever follows it, and its features are judged.
    ensures only { (b : Banner) (n : ℕ) → b.supported < 2 ^ 64 → b.required < 2 ^ 64 → IsBanner bytes.now b n → result ≡ by_features b n }
    // It is refused for the first byte of the text that differs, for its length, or for the features; nothing is answered where it
    // isn't all there.
    ensures exact { result ≡ banner_at bytes.now }
{
    banner_at(bytes)
}

#[tactic(auto, unfolding(crate::specs::Banners::banner_at, crate::specs::Banners::behind_word))]
fn banner_at(bytes: &[u8]) -> Result<Option<(Banner, usize)>, BannerRefusal>
    ensures { result ≡ banner_at bytes.now }
{
    if let Some(place) = bad_place(bytes) {
        return Err(BannerRefusal::BadBanner(place));
    }
    if bytes.len() < 10 {
        return Ok(None);
    }
    sized(bytes, u16::from_le_bytes([bytes[8], bytes[9]]))
}

#[tactic(auto, unfolding(crate::specs::Banners::bad_place))]
fn bad_place(bytes: &[u8]) -> Option<usize>
    ensures { result ≡ bad_place bytes.now }
{
    WORD.iter().zip(bytes).position(|(w, b)| *w != *b)
}

// The banner behind the word, whose length this is.
#[tactic(auto, unfolding(crate::specs::Banners::sized))]
fn sized(bytes: &[u8], length: u16) -> Result<Option<(Banner, usize)>, BannerRefusal>
    ensures { result ≡ sized bytes.now length }
{
    if length < 16 || 256 < length {
        return Err(BannerRefusal::BadBanner(8));
    }
    let end = 10 + length as usize;
    if bytes.len() < end {
        return Ok(None);
    }
    let b = bytes;
    let supported = u64::from_le_bytes([b[10], b[11], b[12], b[13], b[14], b[15], b[16], b[17]]);
    let required = u64::from_le_bytes([b[18], b[19], b[20], b[21], b[22], b[23], b[24], b[25]]);
    by_features(
        Banner {
            supported,
            required,
        },
        end,
    )
}

#[tactic(auto, unfolding(crate::specs::Banners::by_features))]
fn by_features(banner: Banner, end: usize) -> Result<Option<(Banner, usize)>, BannerRefusal>
    ensures { result ≡ by_features banner end }
{
    if 1 < banner.required {
        return Err(BannerRefusal::Features(banner.required - banner.required % 2));
    }
    if banner.supported % 2 == 0 {
        return Err(BannerRefusal::Features(1));
    }
    Ok(Some((banner, end)))
}

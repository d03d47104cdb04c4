//! Rows of banners.

use crate::shown::bytes_of;
use cx_base::Blob;
use cx_frame::{put_banner, read_banner};
use std::alloc::{AllocError, Global};

/// What is told of a banner: its features and its length, whether it is written again, and at how many of the lengths to which it is
/// cut it is not there yet.
pub fn banner(alloc: Global, digits: &str) -> Result<String, AllocError> {
    let Some(bytes) = bytes_of(alloc, digits)? else {
        return format!(in alloc; "banner: no bytes\n");
    };
    let bytes = bytes.bytes();
    match read_banner(bytes) {
        Ok(Some((banner, end))) => {
            let mut told = format!(in alloc;
                "banner supported {} required {} in {} bytes",
                banner.supported, banner.required, end
            )?;
            let mut again = Blob::new(alloc);
            put_banner(alloc, &mut again, &banner)?;
            let words = if again.bytes() == bytes {
                "again"
            } else {
                "otherwise"
            };
            write!(
                told,
                ", written {}; cut, not yet x{}\n",
                words,
                waiting(bytes)
            )?;
            Ok(told)
        }
        Ok(None) => format!(in alloc; "banner not yet\n"),
        Err(refusal) => format!(in alloc; "banner refused: {refusal}\n"),
    }
}

// At how many shorter lengths the banner isn't there yet.
fn waiting(bytes: &[u8]) -> u32 {
    let mut count = 0u32;
    for length in 0..bytes.len() {
        if read_banner(&bytes[..length]) == Ok(None) {
            count = count.saturating_add(1);
        }
    }
    count
}

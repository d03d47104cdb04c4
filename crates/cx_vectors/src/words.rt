//! The words of a row, and how bytes are printed.

use cx_base::{Blob, Items};
use std::alloc::{AllocError, Global};
use std::fmt;

/// Why a row is not told.
#[derive(Clone, Copy, Debug, PartialEq, Eq)]
pub enum Untold {
    /// Its words are none of its kind.
    NoRow,
    OutOfMemory,
}

impl From<AllocError> for Untold {
    fn from(_: AllocError) -> Untold {
        Untold::OutOfMemory
    }
}

/// The bytes of each word.
pub fn words_of(alloc: Global, row: &str) -> Result<Items<Blob>, Untold> {
    let mut words = Items::new(alloc);
    for word in row.split_ascii_whitespace() {
        let bytes = bytes_of(alloc, word)?;
        words.push(alloc, bytes)?;
    }
    Ok(words)
}

// `-` is no bytes. `DIGITS*N` stands for N times these bytes, and `+` joins pieces.
fn bytes_of(alloc: Global, word: &str) -> Result<Blob, Untold> {
    let mut bytes = Blob::new(alloc);
    if word == "-" {
        return Ok(bytes);
    }
    for piece in word.split('+') {
        let (once, times) = piece.split_once('*').unwrap_or((piece, "1"));
        let Ok(times) = times.parse::<u32>() else {
            return Err(Untold::NoRow);
        };
        let Ok(part) = hex::decode(alloc, once) else {
            return Err(Untold::NoRow);
        };
        for _ in 0..times {
            bytes.append(alloc, &part)?;
        }
    }
    Ok(bytes)
}

/// A word of so many bytes.
pub fn array_of<const N: usize>(word: &Blob) -> Result<&[u8; N], Untold> {
    match word.bytes().as_array::<N>() {
        Some(array) => Ok(array),
        None => Err(Untold::NoRow),
    }
}

/// Bytes, two digits each; `-` for none. Of more than 1,000 their number and the last sixteen.
#[derive(Clone, Copy)]
pub struct Hex<'a>(pub &'a [u8]);

impl fmt::Display for Hex<'_> {
    fn fmt<W: fmt::Write>(&self, f: &mut fmt::Formatter<W>) -> fmt::Result {
        let count = self.0.len();
        if count == 0 {
            return write!(f, "-");
        }
        if count <= 1000 {
            return digits(f, self.0);
        }
        write!(f, "{count} bytes ..")?;
        digits(f, &self.0[count - 16..])
    }
}

fn digits<W: fmt::Write>(f: &mut fmt::Formatter<W>, bytes: &[u8]) -> fmt::Result {
    for byte in bytes {
        write!(f, "{byte:02x}")?;
    }
    Ok(())
}

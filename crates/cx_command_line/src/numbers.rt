//! Numbers within bounds.

ghost use Rattle.std.specs.Prelude.{◌≡◌, ◌≤◌, ◌<◌, ◌^◌, IfSome};
ghost use Rattle.cx_command_line.specs.Words.{bounded, octet};

use cx_words::number;

/// The number that the word spells, where it is one of these.
pub fn bounded(least: u64, most: u64, word: &str) -> Option<u64>
    ensures read { result ≡ bounded least most word.now }
    ensures bound { IfSome result (λ n. (least ≤ n) × (n ≤ most)) }
{
    let n = number(word.as_bytes())?;
    if least <= n && n <= most {
        Some(n)
    } else {
        None
    }
}

/// A number from 0 to 255.
pub fn octet(word: &[u8]) -> Option<u8>
    ensures { result ≡ octet word.now }
{
    let n = number(word)?;
    if n <= 255 { Some(n as u8) } else { None }
}

/// A port, from 1 to 65,535.
pub fn port(word: &[u8]) -> Option<u16>
    ensures { result ≡ bounded 1 65535 word.now }
{
    let n = number(word)?;
    if 1 <= n && n <= 65_535 {
        Some(n as u16)
    } else {
        None
    }
}

//! Addresses.

ghost use Rattle.std.specs.Prelude.{◌≡◌, ◌==◌, ◌<◌, length, IfSome};
ghost use Rattle.std.specs.List.{position_from};
ghost use Rattle.std.specs.Option.{option_map};
ghost use Rattle.cx_command_line.specs.Words.{address, four_octets, parted, three_octets, two_octets};

use crate::numbers::{octet, port};
use cx_base::Addr;

/// What stands before the first such byte of the word, and what behind it.
pub fn parted(byte: u8, word: &[u8]) -> Option<(&[u8], &[u8])>
    ensures { option_map (λ p. (p.0.now, p.1.now)) result ≡ parted byte word.now }
{
    match place_of(byte, word) {
        Some(place) => Some((&word[..place], &word[place + 1..])),
        None => None,
    }
}

fn place_of(byte: u8, word: &[u8]) -> Option<usize>
    ensures place { result ≡ position_from (λ b. b == byte) 0 word.now }
    ensures bound { IfSome result (λ place. place < length word.now) }
{
    word.iter().position(|b| *b == byte)
}

fn two_octets(word: &[u8]) -> Option<(u8, u8)>
    ensures { result ≡ two_octets word.now }
{
    let (first, rest) = parted(b'.', word)?;
    let first = octet(first)?;
    let second = octet(rest)?;
    Some((first, second))
}

fn three_octets(word: &[u8]) -> Option<(u8, (u8, u8))>
    ensures { result ≡ three_octets word.now }
{
    let (first, rest) = parted(b'.', word)?;
    let first = octet(first)?;
    let others = two_octets(rest)?;
    Some((first, others))
}

fn four_octets(word: &[u8]) -> Option<(u8, (u8, (u8, u8)))>
    ensures { result ≡ four_octets word.now }
{
    let (first, rest) = parted(b'.', word)?;
    let first = octet(first)?;
    let others = three_octets(rest)?;
    Some((first, others))
}

/// The address that the word spells: four numbers from 0 to 255 with points between, a colon and a port from 1 to 65,535. Its
/// nonce is 0.
pub fn address(word: &[u8]) -> Option<Addr>
    ensures { result ≡ address word.now }
{
    let (ip, rest) = parted(b':', word)?;
    let (first, (second, (third, fourth))) = four_octets(ip)?;
    let port = port(rest)?;
    Some(Addr {
        nonce: 0,
        ip: [first, second, third, fourth],
        port,
    })
}

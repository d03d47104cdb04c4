//! Peers of a client.

ghost use Rattle.std.specs.Prelude.{◌≡◌, map};
ghost use Rattle.std.specs.List.{list_all};
ghost use Rattle.std.specs.Option.{option_map};
ghost use Rattle.cx_command_line.specs.Words.{are_peers, is_peer, peer, peer_seen};

use crate::addresses::{address, parted};
use crate::names::daemon_name;
use cx_base::Addr;
use cx_enc::NameRef;

/// The peer that the word spells: the name of a daemon, an at sign and its address.
pub fn peer(word: &str) -> Option<(NameRef<'_>, Addr)>
    ensures { option_map peer_seen result ≡ peer word.now }
{
    let (name, at) = parted(b'@', word.as_bytes())?;
    let name = daemon_name(name)?;
    let at = address(at)?;
    Some((name, at))
}

/// Whether each of the words spells one.
pub fn are_peers(words: &[&str]) -> bool
    ensures { result ≡ are_peers (map (λ w. w.now) words.now) }
{
    all_spell(words)
}

fn all_spell(words: &[&str]) -> bool
    ensures { result ≡ list_all (λ w. is_peer w.now) words.now }
{
    words.iter().all(|word| is_peer(word))
}

fn is_peer(word: &str) -> bool
    ensures { result ≡ is_peer word.now }
{
    peer(word).is_some()
}

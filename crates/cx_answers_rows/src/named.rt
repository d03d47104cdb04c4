//! Who the nodes of rows are.

use crate::events::{number_of, seed_of};
use cx_base::{Addr, EntityName, EntityType, Text, TextRefusal};
use cx_enc::Key;
use cx_holdings::OfferedModes;
use cx_keyring::{Keyring, KeyringRefusal, parse};
use std::alloc::{AllocError, Global};

/// The words of a row `NAME SEED NUMBER MODES`. Words that aren't there are empty.
#[derive(Clone, Copy)]
pub struct Named<'a> {
    pub name: &'a str,
    seed: &'a str,
    number: &'a str,
    modes: &'a str,
}

impl<'a> Named<'a> {
    pub fn of(row: &'a str) -> Named<'a> {
        let mut words = row.split(' ');
        Named {
            name: words.next().unwrap_or(""),
            seed: words.next().unwrap_or(""),
            number: words.next().unwrap_or(""),
            modes: words.next().unwrap_or(""),
        }
    }

    /// The seed of its draws.
    pub fn seed(&self) -> u64 {
        seed_of(self.seed)
    }

    /// Its address, on this machine.
    pub fn address(&self) -> Addr {
        local(number_of(self.number), 0)
    }

    /// The modes that it offers.
    pub fn modes(&self) -> OfferedModes {
        let mut modes = OfferedModes {
            crc: false,
            secure: false,
        };
        for word in self.modes.split(',') {
            if word == "crc" {
                modes.crc = true;
            }
            if word == "secure" {
                modes.secure = true;
            }
        }
        modes
    }
}

/// An address on this machine.
pub fn local(nonce: u32, port: u16) -> Addr {
    Addr {
        nonce,
        ip: [127, 0, 0, 1],
        port,
    }
}

/// The keyring of these lines; an empty one where they are none.
pub(crate) fn ring_of(alloc: Global, lines: &[u8]) -> Result<Keyring, AllocError> {
    match parse(alloc, lines) {
        Ok(ring) => Ok(ring),
        Err(KeyringRefusal::OutOfMemory) => Err(AllocError),
        Err(_) => Ok(Keyring::empty(alloc)),
    }
}

/// The client of this name; none where the word is no client's.
pub fn client_name(alloc: Global, word: &str) -> Result<Option<EntityName>, AllocError> {
    match word.strip_prefix("client.") {
        Some(id) => name_of(alloc, EntityType::Client, id),
        None => Ok(None),
    }
}

/// The client or the daemon of this name; none where the word is neither's.
pub fn entity_name(alloc: Global, word: &str) -> Result<Option<EntityName>, AllocError> {
    let (kind, id) = word.split_once('.').unwrap_or((word, ""));
    match kind {
        "osd" => name_of(alloc, EntityType::Osd, id),
        "mds" => name_of(alloc, EntityType::Mds, id),
        "mgr" => name_of(alloc, EntityType::Mgr, id),
        _ => client_name(alloc, word),
    }
}

fn name_of(alloc: Global, kind: EntityType, id: &str) -> Result<Option<EntityName>, AllocError> {
    match Text::of(alloc, id.as_bytes()) {
        Ok(id) => Ok(EntityName::new(kind, id).ok()),
        Err(TextRefusal::NotAscii(_)) => Ok(None),
        Err(TextRefusal::OutOfMemory) => Err(AllocError),
    }
}

/// An entity of a keyring.
#[derive(Drop)]
pub struct Member {
    pub name: EntityName,
    pub key: Key,
}

/// The client or the daemon of this name, where the keyring of these lines has it.
pub fn member_of(alloc: Global, lines: &[u8], word: &str) -> Result<Option<Member>, AllocError> {
    let ring = ring_of(alloc, lines)?;
    let Some(name) = entity_name(alloc, word)? else {
        return Ok(None);
    };
    match ring.find(&name) {
        Some(entry) => Ok(Some(Member {
            name,
            key: entry.key,
        })),
        None => Ok(None),
    }
}

//! By what entries are found.

ghost use Rattle.std.specs.Prelude.{◌≡◌, IfOk};
ghost use Rattle.cx_audit.specs.indexed.Keyed.{bytes_key, kind_number, name_key, number_key};

use cx_base::{Blob, EntityName, EntityType};
use std::alloc::{AllocError, Global};

/// What an entry is found by: bytes and two numbers.
#[derive(PartialEq, Eq, PartialOrd, Ord, Drop)]
pub struct Key {
    pub bytes: Blob,
    pub round: u64,
    pub number: u64,
}

impl Key {
    /// A number of an entity, in one of its rounds.
    pub fn of_entity(
        alloc: Global,
        name: &EntityName,
        number: u64,
        round: u64,
    ) -> Result<Key, AllocError>
        ensures { IfOk result (λ key. key ≡ name_key name.now number round) }
    {
        let mut bytes = Blob::of(alloc, &[kind_number(name.kind)])?;
        bytes.append(alloc, name.id.bytes())?;
        Ok(Key {
            bytes,
            round,
            number,
        })
    }

    /// A number alone.
    pub fn of_number(alloc: Global, number: u64) -> Key
        ensures { result ≡ number_key number }
    {
        Key {
            bytes: Blob::new(alloc),
            round: 0,
            number,
        }
    }

    /// Bytes, with a number.
    pub fn of_bytes(alloc: Global, bytes: &[u8], number: u64) -> Result<Key, AllocError>
        ensures { IfOk result (λ key. key ≡ bytes_key bytes.now number) }
    {
        let bytes = Blob::of(alloc, bytes)?;
        Ok(Key {
            bytes,
            round: 0,
            number,
        })
    }
}

fn kind_number(kind: EntityType) -> u8
    ensures { result ≡ kind_number kind }
{
    match kind {
        EntityType::Mon => 0,
        EntityType::Mds => 1,
        EntityType::Osd => 2,
        EntityType::Client => 3,
        EntityType::Mgr => 4,
        EntityType::Auth => 5,
    }
}

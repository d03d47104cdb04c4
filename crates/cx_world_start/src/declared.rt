//! Declared entities.

ghost use Rattle.std.specs.Prelude.{◌≡◌, IfOk};
ghost use Rattle.cx_run.specs.Opening.{local, modes_offered, principal_of, secret_of};
ghost use Rattle.cx_holdings.specs.cx_rules.specs.Holdings.{modes_of};

use crate::secrets::secret_of_seed;
use cx_base::{Addr, Duplicate, EntityName, Grant, Items, copy_items};
use cx_enc::{Key, Time};
use cx_holdings::OfferedModes;
use cx_keyring::Entry;
use cx_words::Modes;
use std::alloc::{AllocError, Global};
use std::marker::Model;

// The seed from which the secrets of entities count: 2^63.
const SECRETS: u64 = 1 << 63;

/// A declared entity: which one it is of those that are declared, from 1; its line; its name and its caps; the seed of its dice, where one is
/// told; and the modes that it offers.
#[derive(Drop)]
pub struct Declared {
    pub number: u32,
    pub line: u32,
    pub name: EntityName,
    pub grants: Items<Grant>,
    pub seed: Option<u64>,
    pub modes: Modes,
}

impl Model for Declared {
    ghost use Rattle.std.specs.Prelude.{IsTrue};
    ghost use Rattle.cx_words.specs.lines.Known.{is_declarable};
    ghost use Rattle.cx_run.specs.Opening as run;

    ghost Value = { run.Declared };

    ghost view = { λ d. record { number = d.number; line = d.line; name = d.name; grants = d.grants; seed = d.seed; modes = d.modes } };

    ghost invariant = { λ d. IsTrue (is_declarable d.name) };
}

impl Declared {
    /// Its secret: the first 16 bytes that the seed 2^63 and its number give.
    pub fn secret(&self, alloc: Global) -> [u8; 16]
        ensures { result ≡ secret_of self.now }
    {
        secret_of_seed(alloc, SECRETS + u64::from(self.number))
    }

    /// Its key, which was made at the time 0.
    pub fn key(&self, alloc: Global) -> Key
        ensures { result ≡ record { created = record { secs = 0; nanos = 0 }; secret = secret_of self.now } }
    {
        Key {
            created: Time { secs: 0, nanos: 0 },
            secret: self.secret(alloc),
        }
    }

    /// Its address on this machine: its number is the nonce, and there is no port.
    pub fn address(&self) -> Addr
        ensures { result ≡ local self.now.number 0 }
    {
        Addr {
            nonce: self.number,
            ip: [127, 0, 0, 1],
            port: 0,
        }
    }

    /// The modes that it offers: a daemon the secure one alone.
    pub fn offered(&self) -> OfferedModes
        ensures { modes_of result.crc result.secure ≡ modes_offered self.now }
    {
        if self.name.kind.is_daemon() {
            return OfferedModes {
                crc: false,
                secure: true,
            };
        }
        match self.modes {
            Modes::Crc => OfferedModes {
                crc: true,
                secure: false,
            },
            Modes::Secure => OfferedModes {
                crc: false,
                secure: true,
            },
            Modes::Both => OfferedModes {
                crc: true,
                secure: true,
            },
        }
    }

    /// Its entry in the monitor's keyring.
    pub fn principal(&self, alloc: Global) -> Result<Entry, AllocError>
        ensures { IfOk result (λ entry. entry ≡ principal_of self.now) }
    {
        let name = self.name.copy(alloc)?;
        let key = self.key(alloc);
        let caps = copy_items(alloc, &self.grants)?;
        Ok(Entry { name, key, caps })
    }
}

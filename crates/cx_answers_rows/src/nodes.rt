//! The monitor and the clients of rows.

ghost use Rattle.cx_rotate.specs.Keeping.{IsKeptState, IsLife};

use crate::named::{Member, Named, local, member_of, ring_of};
use cx_base::{EntityType, SECOND};
use cx_client::Client;
use cx_keep::decode_state;
use cx_keyserver::KeyServer;
use cx_mon::Monitor;
use cx_rotate::{Generations, KeptState};
use std::alloc::{AllocError, Global};

// The life of tickets and secrets, of so many seconds.
fn life_of(word: &str) -> u64
    ensures { IsLife result }
{
    match word.parse::<u64>() {
        Ok(seconds) if 1 <= seconds && seconds <= 31_536_000 => seconds * SECOND,
        Ok(_) => SECOND,
        Err(_) => SECOND,
    }
}

// The state of a monitor that has kept nothing yet.
fn first_state(life: &str, auth_life: &str) -> KeptState
    ensures { IsKeptState result }
{
    let none = Generations::empty();
    KeptState {
        next_gid: 1,
        life: life_of(life),
        auth_life: life_of(auth_life),
        mds: none,
        osd: none,
        mgr: none,
        auth: none,
    }
}

// The state that these words spell, of lives of so many seconds; where they spell none, that of a monitor that has kept nothing yet.
fn state_of(alloc: Global, kept: &str, life: &str, auth_life: &str) -> KeptState
    ensures { IsKeptState result }
{
    let Ok(bytes) = hex::decode(alloc, kept) else {
        return first_state(life, auth_life);
    };
    match decode_state(&bytes, life_of(life), life_of(auth_life)) {
        Ok(state) => state,
        Err(_) => first_state(life, auth_life),
    }
}

/// The monitor of a row `SEED LIFE AUTH_LIFE STATE`, with the keyring of these lines. Without a state it has kept nothing yet.
pub fn monitor_of(alloc: Global, lines: &[u8], row: &str) -> Result<Monitor, AllocError> {
    let mut words = row.split(' ').skip(1);
    let life = words.next().unwrap_or("");
    let auth_life = words.next().unwrap_or("");
    let kept = words.next().unwrap_or("");
    let ring = ring_of(alloc, lines)?;
    let server = KeyServer::new(ring, state_of(alloc, kept, life, auth_life));
    Ok(Monitor::new(alloc, server, local(0, 6789)))
}

/// A key server that has kept nothing yet, with the keyring of these lines and lives of an hour.
pub fn server_of(alloc: Global, lines: &[u8]) -> Result<KeyServer, AllocError> {
    let ring = ring_of(alloc, lines)?;
    Ok(KeyServer::new(ring, first_state("3600", "3600")))
}

/// The client of a row, where the keyring of these lines has its name.
pub fn client_of(
    alloc: Global,
    lines: &[u8],
    named: &Named<'_>,
) -> Result<Option<Client>, AllocError> {
    let Some(member) = member_of(alloc, lines, named.name)? else {
        return Ok(None);
    };
    let Member { name, key } = member;
    let EntityType::Client = name.kind else {
        return Ok(None);
    };
    Ok(Some(Client::new(alloc, name, key, named.modes(), named.address())))
}

//! The states that a monitor keeps.

use crate::answered::{Answered, Refused};
use crate::sealed::Each;
use cx_base::SECOND;
use cx_keep::{BadState, decode_state, encode_state};
use std::alloc::Global;

// The lives of a state of format 1, which holds none.
const LIFE: u64 = 3600 * SECOND;

const AUTH_LIFE: u64 = 43_200 * SECOND;

/// What bytes of the kind of this name mean.
pub fn state(alloc: Global, kind: &str, bytes: &[u8]) -> Result<Answered, Refused> {
    if kind != "state" {
        return Err(Refused::NoKind);
    }
    let x = match decode_state(bytes, LIFE, AUTH_LIFE) {
        Ok(state) => state,
        Err(BadState(place)) => return Err(Refused::At(place)),
    };
    let again = encode_state(alloc, &x)?;
    let mut meaning = format!(in alloc;
        "gid {} life {} auth_life {}",
        x.next_gid, x.life, x.auth_life
    )?;
    write!(meaning, " mds{} osd{}", Each(&x.mds), Each(&x.osd))?;
    write!(meaning, " mgr{} auth{}", Each(&x.mgr), Each(&x.auth))?;
    Ok(Answered { meaning, again })
}

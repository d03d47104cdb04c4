//! A session that moved to a link.

ghost use Rattle.std.specs.Prelude.{◌≡◌, None, IfOk, OnErr};
ghost use Rattle.cx_daemon.specs.Moving.{IsShutBehind};

use cx_daemon_events::{Link, numbers_in, shut_all};
use cx_node::Links;
use cx_steps::Effects;
use std::alloc::{AllocError, Global};

// The older links of a session that moved to the link of this number are shut.
pub(crate) fn shuts_older(
    alloc: Global,
    links: &mut Links<Link>,
    number: u32,
    moved: Option<u64>,
    out: Effects,
) -> Result<Effects, AllocError>
    requires { links.old.room ≡ None }
    ensures ok { IfOk result (λ given. IsShutBehind number moved links.old.links links.new.links out given) }
    ensures err { OnErr result (links.new ≡ links.old) }
    ensures room { links.new.room ≡ None }
{
    let Some(session) = moved else {
        return Ok(out);
    };
    let older = numbers_in(alloc, links, session, Some(number))?;
    let mut out = out;
    let mut shuts = numbers_in(alloc, links, session, Some(number))?;
    shuts.append(alloc, out.shuts)?;
    out.shuts = shuts;
    shut_all(links, &older);
    Ok(out)
}

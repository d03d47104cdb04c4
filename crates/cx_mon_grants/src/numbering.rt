//! Which global id an entity gets.

ghost use Rattle.std.specs.Prelude.{◌≡◌, Ok, Err, IfOk, IfErr, OnErr};
ghost use Rattle.cx_rules.specs.Verdicts.{next_number, numbered};

use cx_journal::LoginFault;
use cx_keyserver::{GidsSpent, KeyServer};
use cx_login::Reclaim;

/// The global id that the entity keeps, or the next one. There is none where it would keep one that it may not, or all are given out.
pub(crate) fn numbered(server: &mut KeyServer, reclaim: Reclaim) -> Result<u64, LoginFault>
    ensures ok { IfOk result (λ gid. numbered server.old reclaim ≡ Ok (record { server = server.new; gid = gid })) }
    ensures err { IfErr result (λ why. numbered server.old reclaim ≡ Err why) }
    ensures unchanged { OnErr result (server.new ≡ server.old) }
{
    match reclaim {
        Reclaim::Kept(gid) => Ok(gid),
        Reclaim::Fresh => next_number(server),
        Reclaim::Denied { gid } => Err(LoginFault::Reclaim(gid)),
    }
}

// The next global id, while there is one.
fn next_number(server: &mut KeyServer) -> Result<u64, LoginFault>
    ensures ok { IfOk result (λ gid. next_number server.old ≡ Ok (record { server = server.new; gid = gid })) }
    ensures err { IfErr result (λ why. next_number server.old ≡ Err why) }
    ensures unchanged { OnErr result (server.new ≡ server.old) }
{
    match server.next_gid() {
        Ok(gid) => Ok(gid),
        Err(GidsSpent) => Err(LoginFault::GidsSpent),
    }
}

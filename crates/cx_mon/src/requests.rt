//! AUTH_REQUEST.

ghost use Rattle.std.specs.Prelude.{◌≡◌, ◌==◌};
ghost use Rattle.std.specs.List.{list_any};
ghost use Rattle.cx_link.specs.Wires.{wired};
ghost use Rattle.cx_rules.specs.Acceptor.{AwaitsRequest, on_auth_request};
ghost use Rattle.cx_rules.specs.MonitorRule.{on_request_payload};
ghost use Rattle.cx_mon.specs.acceptor.Rows.{Makes};

use crate::links::Link;
use crate::logins::on_login_hello;
use crate::making::denies;
use crate::own::{KeyChange, Own};
use cx_control::AuthRequest;
use cx_journal::{BytesFault, LoginFault};
use cx_link::{PlainLink, code};
use cx_node::{Moment, NoRow, NodeRow, whole};
use cx_wire::LoginHello;
use std::alloc::Global;

// The method has to be 2, cephx, and 2, the secure mode, among the modes; what follows is a LoginHello.
pub(crate) fn on_auth_request(
    alloc: Global,
    own: &Own,
    at: &Moment<'_>,
    link: PlainLink,
    read: Result<AuthRequest, BytesFault>,
) -> Result<NodeRow<Link, KeyChange>, NoRow>
    ensures { Makes own.now at.now (wired at.now.number link AwaitsRequest) (λ a. on_auth_request on_request_payload a read) result }
{
    let request = read?;
    if request.method != 2 {
        Ok(denies(alloc, at, code::NOT_SUPPORTED, LoginFault::Method)?)
    } else if !offers_secure(request.modes.all()) {
        Ok(denies(alloc, at, code::NOT_SUPPORTED, LoginFault::Mode)?)
    } else {
        let hello = whole::<LoginHello>(alloc, request.payload.bytes())?;
        on_login_hello(alloc, own, at, link, hello)
    }
}

fn offers_secure(modes: &[u32]) -> bool
    ensures { result ≡ list_any (λ mode. mode == 2) modes.now }
{
    modes.iter().any(|mode| *mode == 2)
}

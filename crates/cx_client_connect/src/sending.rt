//! Frames with an authorizer, which may be too long for a plain one.

ghost use Rattle.std.specs.Prelude.{IfOk};
ghost use Rattle.cx_control.specs.Auth.{auth_request_layout, auth_request_more_layout};
ghost use Rattle.cx_node.specs.cx_rules.specs.Payloads.{control};
ghost use Rattle.cx_node.specs.cx_rules.specs.Secured.{plain_frame};
ghost use Rattle.cx_node.specs.steps.Sending.{SendsPlain};

use cx_base::Blob;
use cx_control::{AuthRequest, AuthRequestMore};
use cx_holdings::MonClient;
use cx_journal::BytesFault;
use cx_link::{PlainLink, tag};
use cx_node::{SentPlain, send_plain};
use std::alloc::{AllocError, Global};

/// The segments of a plain frame have at most so many bytes together.
const MAX_PLAIN: usize = 65_536;

// Sends AUTH_REQUEST with an authorizer.
#[tactic(auto, using(crate::proofs::presenting::Showing::request_long))]
pub(crate) fn send_request(
    alloc: Global,
    link: PlainLink,
    mon_client: &MonClient,
    authorizer: Blob,
) -> Result<Result<SentPlain, BytesFault>, AllocError>
    ensures { IfOk result (SendsPlain link (plain_frame (control 2 auth_request_layout.form (record { method = 2; modes = mon_client.now.modes; payload = authorizer })))) }
{
    if authorizer.bytes().len() > MAX_PLAIN {
        return Ok(Err(BytesFault::TooLong));
    }
    let request = AuthRequest {
        method: 2,
        modes: mon_client.modes(alloc)?,
        payload: authorizer,
    };
    send_plain(alloc, link, tag::AUTH_REQUEST, &request)
}

// Sends AUTH_REQUEST_MORE with an authorizer.
#[tactic(auto, using(crate::proofs::presenting::Showing::more_long))]
pub(crate) fn send_more(
    alloc: Global,
    link: PlainLink,
    authorizer: Blob,
) -> Result<Result<SentPlain, BytesFault>, AllocError>
    ensures { IfOk result (SendsPlain link (plain_frame (control 5 auth_request_more_layout.form (record { payload = authorizer })))) }
{
    if authorizer.bytes().len() > MAX_PLAIN {
        return Ok(Err(BytesFault::TooLong));
    }
    let more = AuthRequestMore {
        payload: authorizer,
    };
    send_plain(alloc, link, tag::AUTH_REQUEST_MORE, &more)
}

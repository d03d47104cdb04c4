//! The banner and HELLO.

ghost use Rattle.std.specs.Prelude.{◌≡◌, IfOk};
ghost use Rattle.cx_link.specs.Wires.{new_wire};
ghost use Rattle.cx_node.specs.cx_rules.specs.Greetings.{own_banner, own_hello};
ghost use Rattle.cx_node.specs.cx_rules.specs.Secured.{plain_frame};
ghost use Rattle.cx_node.specs.steps.Sending.{SendsPlain};

use crate::steps_sending::{SentPlain, send_plain};
use cx_base::{Addr, Blob, EntityType};
use cx_control::Hello;
use cx_journal::BytesFault;
use cx_link::{BannerLink, PlainLink, own_banner, tag};
use std::alloc::{AllocError, Global};

// An address of which nothing is said.
const NO_ADDR: Addr = Addr {
    nonce: 0,
    ip: [0; 4],
    port: 0,
};

/// A link that opens, on which the banner was sent, and the bytes of that.
#[derive(Drop)]
pub struct SentBanner {
    pub link: BannerLink,
    pub bytes: Blob,
}

/// Sends the banner on a link that opens, on which nothing came or was sent yet.
pub fn send_banner(alloc: Global) -> Result<SentBanner, AllocError>
    ensures { IfOk result (λ sent. sent ≡ record { link = record new_wire { sent = own_banner }; bytes = own_banner }) }
{
    let bytes = own_banner(alloc)?;
    let mut link = BannerLink::new(alloc);
    link.send(alloc, bytes.bytes())?;
    Ok(SentBanner { link, bytes })
}

/// Sends HELLO, with one's own type and nothing of the peer's address, or says why it can't be written.
pub fn send_hello(
    alloc: Global,
    link: PlainLink,
    kind: EntityType,
) -> Result<Result<SentPlain, BytesFault>, AllocError>
    ensures { IfOk result (SendsPlain link (plain_frame (own_hello kind))) }
{
    let hello = Hello {
        kind,
        addr: NO_ADDR,
    };
    send_plain(alloc, link, tag::HELLO, &hello)
}

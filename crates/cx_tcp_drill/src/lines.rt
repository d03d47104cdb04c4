//! What all trials of sockets begin with: a node that listens, one that opens, and a wait for what comes.

use cx_base::{Addr, Failed};
use cx_outside::{LinkEvent, Links};
use cx_tcp::TcpLinks;
use std::process;

/// The links of a node that listens, its address, and the links of one that opens a link to it.
#[derive(Drop)]
pub struct Pair<'a> {
    pub server: TcpLinks<&'a HostRuntime>,
    pub at: Addr,
    pub client: TcpLinks<&'a HostRuntime>,
}

impl<'a> Pair<'a> {
    pub fn new(rt: &'a HostRuntime) -> Option<Pair<'a>> {
        let mut server = TcpLinks::new(rt.alloc(), rt).ok()?;
        let at = listen(rt, &mut server)?;
        let client = TcpLinks::new(rt.alloc(), rt).ok()?;
        Some(Pair { server, at, client })
    }

    /// Opens a link, and answers its number at the client and at the server.
    pub fn open(&mut self) -> Option<(u32, u32)> {
        let at = self.at;
        let near = self.client.open(&at).ok()?;
        match come(&mut self.server, &mut [0; 16])? {
            LinkEvent::Opened(far) => Some((near, far)),
            _ => None,
        }
    }

    /// The client hears that its connects are done, and sends what waits.
    pub fn settle(&mut self) -> Option<()> {
        match come(&mut self.client, &mut [0; 16]) {
            Some(_) => None,
            None => Some(()),
        }
    }
}

// Listens at the first port from one on that no other run is likely to take.
fn listen(rt: &HostRuntime, links: &mut TcpLinks<&HostRuntime>) -> Option<Addr> {
    let first = 20_000 + (process::id(rt.process()) % 20_000) as u16;
    for port in first..first.saturating_add(200) {
        let at = address(port);
        if links.listen(&at).is_ok() {
            return Some(at);
        }
    }
    None
}

/// This port of this machine.
pub fn address(port: u16) -> Addr {
    Addr {
        nonce: 0,
        ip: [127, 0, 0, 1],
        port,
    }
}

/// What comes next within a fifth of a second or so.
pub fn come<L: Links>(links: &mut L, into: &mut [u8]) -> Option<LinkEvent> {
    for _ in 0..4 {
        match next(links, into) {
            Ok(LinkEvent::Quiet) => {}
            Ok(event) => return Some(event),
            Err(Failed) => return None,
        }
    }
    None
}

// What comes next; nothing where there is no room for it.
fn next<L: Links>(links: &mut L, into: &mut [u8]) -> Result<LinkEvent, Failed> {
    if into.is_empty() {
        return Err(Failed);
    }
    links.next(into)
}

/// Whether the next that comes on the links are these bytes on this link.
pub fn comes<L: Links>(links: &mut L, link: u32, word: &[u8]) -> bool {
    let mut bytes = [0; 64];
    match come(links, &mut bytes) {
        Some(LinkEvent::Bytes(on, count)) => on == link && bytes.get(..count) == Some(word),
        _ => false,
    }
}

/// Whether the next that comes on the links is the end of this link.
pub fn goes<L: Links>(links: &mut L, link: u32) -> bool {
    come(links, &mut [0; 16]) == Some(LinkEvent::Gone(link))
}

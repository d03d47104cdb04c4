//! One link at a time.

use crate::lines::{Pair, address, come, comes, goes};
use cx_outside::{LinkEvent, Links};
use cx_tcp::TcpLinks;
use std::time::{Duration, Instant};

/// A word goes to the server and back, and when the one ends the link, the other is told.
pub fn echoes(rt: &HostRuntime) -> bool {
    match Pair::new(rt) {
        Some(mut pair) => echo(&mut pair).is_some(),
        None => false,
    }
}

fn echo(pair: &mut Pair<'_>) -> Option<()> {
    let (near, far) = pair.open()?;
    pair.settle()?;
    pair.client.send(near, b"hello").ok()?;
    right(comes(&mut pair.server, far, b"hello"))?;
    pair.server.send(far, b"well met").ok()?;
    right(comes(&mut pair.client, near, b"well met"))?;
    pair.client.shut(near);
    // The client sees to the end of its link, but says nothing of it.
    pair.settle()?;
    right(goes(&mut pair.server, far))?;
    pair.settle()?;
    right(pair.client.send(near, b"late").is_err())
}

/// What was sent at once behind the open comes.
pub fn sends_early(rt: &HostRuntime) -> bool {
    match Pair::new(rt) {
        Some(mut pair) => early(&mut pair).is_some(),
        None => false,
    }
}

fn early(pair: &mut Pair<'_>) -> Option<()> {
    let at = pair.at;
    let near = pair.client.open(&at).ok()?;
    pair.client.send(near, b"first ").ok()?;
    pair.client.send(near, b"words").ok()?;
    let opened = come(&mut pair.server, &mut [0; 16])?;
    right(opened == cx_outside::LinkEvent::Opened(1))?;
    pair.settle()?;
    right(comes(&mut pair.server, 1, b"first words"))
}

/// Nobody listens there: the open fails, or the link is gone.
pub fn is_refused(rt: &HostRuntime) -> bool {
    match TcpLinks::new(rt.alloc(), rt) {
        Ok(mut links) => is_refused_by(&mut links),
        Err(_) => false,
    }
}

fn is_refused_by<L: Links>(links: &mut L) -> bool {
    match links.open(&address(1)) {
        Ok(link) => goes(links, link),
        Err(_) => true,
    }
}

/// Dials to where nobody listens wait, once one failed: the second at least 80 ms, the third at least 160 more.
pub fn waits(rt: &HostRuntime) -> bool {
    match TcpLinks::new(rt.alloc(), rt) {
        Ok(mut links) => wait(rt, &mut links).is_some(),
        Err(_) => false,
    }
}

fn wait(rt: &HostRuntime, links: &mut TcpLinks<&HostRuntime>) -> Option<()> {
    let began = Instant::now(rt).ok()?;
    right(is_refused_by(links))?;
    let second = links.open(&address(1)).ok()?;
    right(goes_later(links, second))?;
    right(began.elapsed(rt).ok()? >= Duration::from_millis(80))?;
    let third = links.open(&address(1)).ok()?;
    right(goes_later(links, third))?;
    right(began.elapsed(rt).ok()? >= Duration::from_millis(240))
}

// Whether the next that comes, within some seconds, is the end of this link.
fn goes_later<L: Links>(links: &mut L, link: u32) -> bool {
    for _ in 0..20 {
        if let Some(event) = come(links, &mut [0; 16]) {
            return event == LinkEvent::Gone(link);
        }
    }
    false
}

/// Two can't listen at one port.
pub fn is_taken(rt: &HostRuntime) -> bool {
    match Pair::new(rt) {
        Some(mut pair) => is_taken_by(&mut pair),
        None => false,
    }
}

fn is_taken_by(pair: &mut Pair<'_>) -> bool {
    let at = pair.at;
    pair.client.listen(&at).is_err()
}

/// A server that refuses and ends while the client still talks is heard to the end.
pub fn ends_well(rt: &HostRuntime) -> bool {
    match Pair::new(rt) {
        Some(mut pair) => end(&mut pair).is_some(),
        None => false,
    }
}

fn end(pair: &mut Pair<'_>) -> Option<()> {
    let (near, far) = pair.open()?;
    pair.settle()?;
    pair.client.send(near, b"a question").ok()?;
    right(comes(&mut pair.server, far, b"a question"))?;
    pair.client.send(near, b"and one that nobody reads").ok()?;
    pair.server.send(far, b"no").ok()?;
    pair.server.shut(far);
    right(comes(&mut pair.client, near, b"no"))?;
    right(come(&mut pair.server, &mut [0; 16]).is_none())?;
    right(goes(&mut pair.client, near))
}

/// As an answer that a `?` can take.
pub fn right(is_so: bool) -> Option<()> {
    if is_so { Some(()) } else { None }
}

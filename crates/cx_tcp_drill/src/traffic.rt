//! Much at a time, and peers that don't do their part.

use crate::lines::{Pair, come};
use crate::sockets::right;
use cx_outside::{LinkEvent, Links, Regard};
use std::time::{Duration, Instant};

const PIECE: usize = 65_536;

/// Three megabytes are sent at once to a peer that reads them later: they come whole and in order.
pub fn comes_whole(rt: &HostRuntime) -> bool {
    match Pair::new(rt) {
        Some(mut pair) => whole(&mut pair).is_some(),
        None => false,
    }
}

fn whole(pair: &mut Pair<'_>) -> Option<()> {
    let (near, _) = pair.open()?;
    for number in 0..48u8 {
        pair.client.send(near, &[number; PIECE]).ok()?;
    }
    let mut place = 0usize;
    let mut bytes = [0; PIECE];
    for _ in 0..100_000 {
        if place >= 48 * PIECE {
            break;
        }
        pair.client.next(&mut [0; 16]).ok()?;
        if let Some(LinkEvent::Bytes(_, count)) = come(&mut pair.server, &mut bytes) {
            right(are_in_order(bytes.get(..count)?, place))?;
            place = place.checked_add(count)?;
        }
    }
    right(place == 48 * PIECE)
}

// Whether these are the bytes that were sent from this place on.
fn are_in_order(bytes: &[u8], place: usize) -> bool {
    let mut at = place;
    for byte in bytes {
        if usize::from(*byte) != at / PIECE {
            return false;
        }
        at = at.saturating_add(1);
    }
    true
}

/// A peer for which more than 4 MiB wait is given up: the send fails, and no end of the link is told again.
pub fn is_given_up(rt: &HostRuntime) -> bool {
    match Pair::new(rt) {
        Some(mut pair) => given_up(&mut pair).is_some(),
        None => false,
    }
}

fn given_up(pair: &mut Pair<'_>) -> Option<()> {
    let (near, _) = pair.open()?;
    let mut sent = 0u32;
    for _ in 0..1_000 {
        if pair.client.send(near, &[7; PIECE]).is_err() {
            break;
        }
        sent = sent.saturating_add(1);
    }
    // 64 pieces wait, and the system holds some more.
    right((64..1_000).contains(&sent))?;
    pair.settle()
}

/// A link on which much waits to be read holds no other up.
pub fn is_fair(rt: &HostRuntime) -> bool {
    match Pair::new(rt) {
        Some(mut pair) => fair(&mut pair).is_some(),
        None => false,
    }
}

fn fair(pair: &mut Pair<'_>) -> Option<()> {
    let (loud, _) = pair.open()?;
    let (quiet, far) = pair.open()?;
    pair.settle()?;
    pair.client.send(loud, &[1; PIECE]).ok()?;
    pair.client.send(quiet, b"hear me").ok()?;
    for _ in 0..4 {
        let event = come(&mut pair.server, &mut [0; 64])?;
        if event == LinkEvent::Bytes(far, 7) {
            return Some(());
        }
    }
    None
}

/// 400 links are opened and served, and their ends told.
pub fn serves_many(rt: &HostRuntime) -> bool {
    match Pair::new(rt) {
        Some(mut pair) => many(&mut pair).is_some(),
        None => false,
    }
}

fn many(pair: &mut Pair<'_>) -> Option<()> {
    for number in 1..=400u32 {
        let (near, far) = pair.open()?;
        right(near == number && far == number)?;
    }
    pair.settle()?;
    for number in 1..=400u32 {
        pair.client.send(number, &number.to_le_bytes()).ok()?;
    }
    let mut came = 0u32;
    for _ in 0..400 {
        let mut bytes = [0; 4];
        let event = come(&mut pair.server, &mut bytes)?;
        right(event == LinkEvent::Bytes(u32::from_le_bytes(bytes), 4))?;
        came = came.saturating_add(1);
    }
    for number in 1..=400u32 {
        pair.client.shut(number);
    }
    pair.settle()?;
    for _ in 0..400 {
        right(matches!(come(&mut pair.server, &mut [0; 16])?, LinkEvent::Gone(_)))?;
    }
    right(came == 400)
}

/// Peers that were accepted and didn't prove themselves are gone between 10 and 12 s later, whatever they sent; one that is known stays.
pub fn tires(rt: &HostRuntime) -> bool {
    match Pair::new(rt) {
        Some(mut pair) => tire(rt, &mut pair).is_some(),
        None => false,
    }
}

fn tire(rt: &HostRuntime, pair: &mut Pair<'_>) -> Option<()> {
    let (speaks, known) = pair.open()?;
    let (begins, slow) = pair.open()?;
    let (_, silent) = pair.open()?;
    pair.settle()?;
    pair.client.send(speaks, &[7; 26]).ok()?;
    right(come(&mut pair.server, &mut [0; 32])? == LinkEvent::Bytes(known, 26))?;
    pair.server.regard(known, Regard::Known);
    pair.client.send(begins, &[7; 26]).ok()?;
    right(come(&mut pair.server, &mut [0; 32])? == LinkEvent::Bytes(slow, 26))?;
    let began = Instant::now(rt).ok()?;
    right(ends(rt, pair, began)? == LinkEvent::Gone(slow))?;
    right(ends(rt, pair, began)? == LinkEvent::Gone(silent))?;
    right(come(&mut pair.server, &mut [0; 16]).is_none())
}

// What comes next at the server, 9 to 12 s behind the beginning.
fn ends(rt: &HostRuntime, pair: &mut Pair<'_>, began: Instant) -> Option<LinkEvent> {
    for _ in 0..400 {
        let event = pair.server.next(&mut [0; 16]).ok()?;
        if event != LinkEvent::Quiet {
            let took = began.elapsed(rt).ok()?;
            right(took >= Duration::from_secs(9) && took <= Duration::from_secs(12))?;
            return Some(event);
        }
    }
    None
}

//! Who crowds a table.

use crate::socket::Socket;
use std::net::IpAddr;

/// The place of the link that the node shut first.
pub fn first_shut(places: &[Option<Socket>]) -> Option<usize> {
    let mut first: Option<(usize, &Socket)> = None;
    for (place, slot) in places.iter().enumerate() {
        if let Some(socket) = slot {
            if socket.is_closing() && first.is_none_or(|(_, other)| socket.since < other.since) {
                first = Some((place, socket));
            }
        }
    }
    first.map(|(place, _)| place)
}

/// How many links the node didn't shut.
pub fn count_unshut(places: &[Option<Socket>]) -> usize {
    let mut count = 0usize;
    for slot in places {
        if let Some(socket) = slot {
            if !socket.is_closing() {
                count = count.saturating_add(1);
            }
        }
    }
    count
}

/// The place of the stranger that was accepted first, of all that stand or of those of one address.
pub fn oldest_stranger(places: &[Option<Socket>], of: Option<IpAddr>) -> Option<usize> {
    let mut oldest: Option<(usize, &Socket)> = None;
    for (place, slot) in places.iter().enumerate() {
        if let Some(socket) = slot {
            let is_theirs = socket.is_stranger() && (of.is_none() || socket.peer == of);
            if is_theirs && oldest.is_none_or(|(_, other)| socket.since < other.since) {
                oldest = Some((place, socket));
            }
        }
    }
    oldest.map(|(place, _)| place)
}

/// The address of more than half of the strangers, if there is one.
pub fn crowding(places: &[Option<Socket>]) -> Option<IpAddr> {
    let address = left_over(places)?;
    let mut theirs = 0usize;
    let mut others = 0usize;
    for slot in places {
        match stranger_at(slot) {
            Some(peer) if peer == address => theirs = theirs.saturating_add(1),
            Some(_) => others = others.saturating_add(1),
            None => {}
        }
    }
    if theirs > others { Some(address) } else { None }
}

// The address that is left where strangers of two addresses are taken away by pairs: if one has more than half of them, it is that.
fn left_over(places: &[Option<Socket>]) -> Option<IpAddr> {
    let mut left = None;
    let mut count = 0usize;
    for slot in places {
        if let Some(peer) = stranger_at(slot) {
            if count == 0 {
                left = Some(peer);
                count = 1;
            } else if left == Some(peer) {
                count = count.saturating_add(1);
            } else {
                count = count.saturating_sub(1);
            }
        }
    }
    left
}

// The address of the stranger at a place, where one stands there.
fn stranger_at(slot: &Option<Socket>) -> Option<IpAddr> {
    match slot {
        Some(socket) if socket.is_stranger() => socket.peer,
        _ => None,
    }
}

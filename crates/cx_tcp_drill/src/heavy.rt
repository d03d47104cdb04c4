//! What waits on all links, a trial of its own, since it takes some hundred megabytes.

use crate::lines::Pair;
use crate::sockets::right;
use cx_outside::{LinkEvent, Links};

const PIECE: usize = 65_536;

const PEERS: u32 = 90;

/// Peers that read nothing are sent so much that more than 256 MiB wait: the one for which the most does is gone, and no send failed.
pub fn relieves(rt: &HostRuntime) -> bool {
    match Pair::new(rt) {
        Some(mut pair) => relieve(&mut pair).is_some(),
        None => false,
    }
}

fn relieve(pair: &mut Pair<'_>) -> Option<()> {
    for number in 1..=PEERS {
        let (near, _) = pair.open()?;
        right(near == number)?;
    }
    pair.settle()?;
    // For the first 4 MiB wait until it is given up: so many pieces go, with what the system holds of them.
    let most = send(pair, 1, 1_000);
    right((64..1_000).contains(&most))?;
    let more = most.saturating_sub(4);
    let fewer = most.saturating_sub(12);
    right(send(pair, 2, more) == more)?;
    for number in 3..=PEERS {
        right(send(pair, number, fewer) == fewer)?;
        match pair.client.next(&mut [0; 16]).ok()? {
            LinkEvent::Quiet => {}
            event => return right(event == LinkEvent::Gone(2)),
        }
    }
    None
}

// Sends so many pieces on a link, and answers how many were taken.
fn send(pair: &mut Pair<'_>, link: u32, count: u32) -> u32 {
    let mut sent = 0u32;
    for _ in 0..count {
        if pair.client.send(link, &[7; PIECE]).is_err() {
            break;
        }
        sent = sent.saturating_add(1);
    }
    sent
}

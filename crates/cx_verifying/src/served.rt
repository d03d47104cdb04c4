//! What is kept of a peer in a session.

use cx_base::Text;
use std::marker::Model;

/// A session as its open link keeps it: its number and its epoch, the client's cookie, whether it ends with the link, and the capabilities of the
/// ticket on which it was admitted or resumed.
#[derive(Drop)]
pub struct Served {
    pub number: u64,
    pub epoch: u64,
    pub cookie: u64,
    pub lossy: bool,
    pub caps: Text,
}

impl Model for Served {
    ghost use Rattle.cx_rules_session.specs.IncomingLinks as incoming_links;

    ghost Value = { incoming_links.Served };

    ghost view = { λ s. record { number = s.number; epoch = s.epoch; cookie = s.cookie; lossy = s.lossy; caps = s.caps } };
}

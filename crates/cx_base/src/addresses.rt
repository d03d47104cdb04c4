//! Addresses of nodes.

/// An address: an IPv4 address with its port, and the nonce that tells two nodes at it apart.
#[derive(Clone, Copy, Debug, PartialEq, Eq)]
pub struct Addr {
    pub nonce: u32,
    pub ip: [u8; 4],
    pub port: u16,
}

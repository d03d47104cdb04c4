//! Ticket blobs.

use cx_base::Blob;

/// The blob of a ticket, as a client shows it: the id of the generation that sealed the ticket, and the sealed ticket. No
/// ticket is the id 0 with no bytes.
#[derive(Debug, PartialEq, Eq, Drop)]
pub struct TicketBlob {
    pub generation: u64,
    pub blob: Blob,
}

/// The blob of a ticket in borrowed bytes.
#[derive(Clone, Copy, Debug)]
pub struct TicketRef<'a> {
    pub generation: u64,
    pub blob: &'a [u8],
}

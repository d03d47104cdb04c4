//! How bytes, addresses, tickets and lists are printed.

use cx_base::{Addr, Items};
use cx_enc::TicketBlob;
use cx_wire::TicketPart;
use std::fmt;

// More bytes or numbers are counted, and their first and last four bytes or numbers printed.
const MOST_SHOWN: usize = 1000;

/// Bytes, two digits each; `-` for none.
#[derive(Clone, Copy)]
pub struct Hex<'a>(pub &'a [u8]);

impl fmt::Display for Hex<'_> {
    fn fmt<W: fmt::Write>(&self, f: &mut fmt::Formatter<W>) -> fmt::Result {
        let count = self.0.len();
        if count > MOST_SHOWN {
            write!(f, "{count} bytes ")?;
            digits(f, &self.0[..4])?;
            write!(f, "..")?;
            return digits(f, &self.0[count - 4..]);
        }
        if count == 0 {
            return write!(f, "-");
        }
        digits(f, self.0)
    }
}

fn digits<W: fmt::Write>(f: &mut fmt::Formatter<W>, bytes: &[u8]) -> fmt::Result {
    for byte in bytes {
        write!(f, "{byte:02x}")?;
    }
    Ok(())
}

/// An address: the four bytes of the IPv4 address, the port and the nonce.
#[derive(Clone, Copy)]
pub struct ShownAddr<'a>(pub &'a Addr);

impl fmt::Display for ShownAddr<'_> {
    fn fmt<W: fmt::Write>(&self, f: &mut fmt::Formatter<W>) -> fmt::Result {
        let [a, b, c, d] = self.0.ip;
        write!(f, "{a}.{b}.{c}.{d}:{}/{}", self.0.port, self.0.nonce)
    }
}

/// The blob of a ticket: the generation and the bytes.
#[derive(Clone, Copy)]
pub struct Ticket<'a>(pub &'a TicketBlob);

impl fmt::Display for Ticket<'_> {
    fn fmt<W: fmt::Write>(&self, f: &mut fmt::Formatter<W>) -> fmt::Result {
        write!(f, "{} {}", self.0.generation, Hex(self.0.blob.bytes()))
    }
}

/// Tickets, each as ` ticket SERVICE info INFO blob GENERATION BYTES`.
#[derive(Clone, Copy)]
pub struct Tickets<'a>(pub &'a Items<TicketPart>);

impl fmt::Display for Tickets<'_> {
    fn fmt<W: fmt::Write>(&self, f: &mut fmt::Formatter<W>) -> fmt::Result {
        for part in self.0.all() {
            write!(f, " ticket {}", part.service)?;
            write!(f, " info {}", Hex(part.info.bytes()))?;
            write!(f, " blob {}", Ticket(&part.ticket))?;
        }
        Ok(())
    }
}

/// Numbers, each behind a space.
#[derive(Clone, Copy)]
pub struct Numbers<'a>(pub &'a [u32]);

impl fmt::Display for Numbers<'_> {
    fn fmt<W: fmt::Write>(&self, f: &mut fmt::Formatter<W>) -> fmt::Result {
        if self.0.len() > MOST_SHOWN {
            return write!(f, " {} numbers", self.0.len());
        }
        for number in self.0 {
            write!(f, " {number}")?;
        }
        Ok(())
    }
}

//! Tickets with what was sealed in them.

ghost use Rattle.std.specs.Prelude.{◌≡◌};
ghost use Rattle.cx_sealed.specs.Records.{service_ticket_layout, ticket_info_layout};
ghost use Rattle.cx_keyserver.specs.Issuing.{service_ticket_of, ticket_info_of};

use crate::tickets::Ticket;
use cx_base::Blob;
use std::marker::Model;

/// The contents of the two sealed parts of a ticket.
#[derive(PartialEq, Eq, Drop)]
pub struct Contents {
    pub info: Blob,
    pub blob: Blob,
}

/// A ticket as it was issued, with the contents of its two sealed parts. Clauses see it as the ticket.
#[derive(Drop)]
pub struct Issuance {
    ticket: Ticket,
    contents: Contents,
}

impl Model for Issuance {
    ghost use Rattle.std.specs.Prelude.{◌≡◌};
    ghost use Rattle.cx_sealed.specs.Records.{service_ticket_layout, ticket_info_layout};
    ghost use Rattle.cx_keyserver.specs.Issuing.{service_ticket_of, ticket_info_of};
    ghost use Rattle.cx_keyserver.specs.declared.tickets.Ticket.{Ticket};

    ghost Value = { Ticket };

    ghost view = { λ i. i.ticket };

    ghost invariant = { λ i. (i.contents.info ≡ ticket_info_layout.form.text (ticket_info_of i.ticket)) × (i.contents.blob ≡ service_ticket_layout.form.text (service_ticket_of i.ticket)) };
}

impl Issuance {
    // A ticket, of whose sealed parts these are the contents.
    pub(crate) fn of(ticket: Ticket, info: Blob, blob: Blob) -> Issuance
        requires info { info ≡ ticket_info_layout.form.text (ticket_info_of ticket) }
        requires blob { blob ≡ service_ticket_layout.form.text (service_ticket_of ticket) }
        ensures { result ≡ ticket }
    {
        Issuance {
            ticket,
            contents: Contents { info, blob },
        }
    }

    /// The ticket.
    pub fn ticket(&self) -> &Ticket
        ensures { result.now ≡ self.now }
    {
        &self.ticket
    }

    /// The ticket, and the contents of its two sealed parts.
    pub fn into_parts(self) -> (Ticket, Contents)
        ensures ticket { result.0 ≡ self }
        ensures info { result.1.info ≡ ticket_info_layout.form.text (ticket_info_of self) }
        ensures blob { result.1.blob ≡ service_ticket_layout.form.text (service_ticket_of self) }
    {
        let Issuance { ticket, contents } = self;
        (ticket, contents)
    }
}

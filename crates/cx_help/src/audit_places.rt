//! What each place of a journal's line takes.

ghost use Rattle.std.specs.Prelude.{◌≡◌};
ghost use Rattle.cx_help.specs.audit.Places.{place_text};

use cx_audit_text::JournalPlace;

/// What the place takes.
pub fn place_text(place: JournalPlace) -> &'static str
    ensures { result.now ≡ place_text place }
{
    match place {
        JournalPlace::Number => "a number below 18,446,744,073,709,551,616, in digits alone",
        JournalPlace::Short => "a number below 4,294,967,296, in digits alone",
        JournalPlace::Byte => "a number below 256, in digits alone",
        JournalPlace::Next =>
            "the number of the ticket, which is its place among the issued ones, from 1",
        JournalPlace::Reading => {
            "a reading of a clock in seconds below 4,000,000,000, as 4599, or with a point and nine digits where it has nanoseconds, as 4599.999999999"
        }
        JournalPlace::Asked => {
            "the reading at which the view was asked for, as 4599 or 4599.999999999, or `-` where it was not"
        }
        JournalPlace::Entity => "the name of an entity, as osd.0",
        JournalPlace::Node => "a node: mon, or the name of an entity",
        JournalPlace::Type => "a type of entities: mon, mds, osd, client, mgr or auth",
        JournalPlace::Caps => "a capability text in quotation marks, as \"allow *\"",
        JournalPlace::Ids => {
            "the ids of three generations that rise by one, joined by commas, as 1,2,3, or `-` for none"
        }
        JournalPlace::Cookie => {
            "a cookie: c and the rank of one that stands above, or the next rank, from c1"
        }
        JournalPlace::Access => "read, write or exec",
        JournalPlace::Part => "a pool, a namespace or an object, or - for none",
        JournalPlace::Data => "bytes in hex, in lower case, or `-` for none",
        JournalPlace::Outcome => "done, denied or no-handler",
        JournalPlace::Premise => "sealing or draw",
        JournalPlace::KeyKind =>
            "the kind of a key or of a draw, as service or challenge; docs/formats.md has them all",
        JournalPlace::Reason =>
            "the first word of a reason, as lost or expired; docs/formats.md has them all",
        JournalPlace::Full => "1024",
        JournalPlace::FullBook => "4096",
        JournalPlace::Ticket => "`ticket=` and the number of a ticket that was issued above, or 0",
        JournalPlace::Verb => "caps, del or get",
        JournalPlace::AdminOutcome => "done, denied, rejected or no-handler",
    }
}

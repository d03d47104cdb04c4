//! The words of a journal's lines: what stands at which place, and which word is wrong there.
//! The lines of a journal, read: each is an entry, or what the monitor did for an administrator.
#![tactic(auto)]

mod choices;
mod entries;
mod forms;
mod judge;
mod lines_laws;
mod lines_places;
mod lines_reasons;
mod numbers;
mod operations;
mod reading;
mod refusals;
mod sessions;
mod texts;
mod tickets;
mod words_places;
mod words_reasons;

pub use choices::{
    AdminOutcome, JournalHead, Verb, admin_outcome_named, entity_type_named, head_named,
    key_kind_named, outcome_named, premise_named, verb_named,
};
pub use entries::{Administered, JournalLine};
pub use judge::{WrongWord, wrong_word};
pub use lines_laws::text_laws;
pub use numbers::{
    asked, byte, cookie, ids, is_full, is_full_book, next_ticket, printed_reading, refused_ticket,
    short,
};
pub use reading::{counted_behind, line_of, read};
pub use refusals::{JournalRefusal, LineRefusal, WrongLine};
pub use texts::{data, node};
pub use words_places::{CountedAbove, JournalPlace};
pub use words_reasons::{FullForm, NumberedForm, PlainForm, ReasonForm, TicketForm, reason_named};

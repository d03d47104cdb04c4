//! What a user reads of a line of a schedule, or of the script of a node, that is none.
//! What a user reads of a line of a keyring that is wrong, and of the caps of entities.
//! What a user reads of a journal: of its first line that is none, and of a rule that it breaks.
//! What a user reads of words of a command line that spell no command.
//! What a user reads of how a command that runs a node ended.
#![tactic(auto)]

mod asides;
mod audit_forms;
mod audit_places;
mod audit_wrong;
mod clauses;
mod command_places;
mod command_sentences;
mod command_wrong;
mod details;
mod grants;
mod hints;
mod keyring_sentences;
mod kin;
mod line_forms;
mod line_wrong;
mod misfits;
mod node_sentences;
mod problems;
mod remarks;
mod rules;
mod said;
mod scripts;
mod settings;
mod sights;
mod standing;
mod told;
mod words;

pub use audit_wrong::WrongInJournal;
pub use clauses::{caps_told, ring_told, start_told};
pub use command_places::Place;
pub use command_sentences::WrongWords;
pub use command_wrong::{Why, WrongUsage, wrong_of};
pub use details::{Detail, detail_of};
pub use keyring_sentences::WrongInKeyring;
pub use kin::or_kin;
pub use line_wrong::Wrong;
pub use node_sentences::{Ending, WrongScript};
pub use remarks::{Remark, beside, is_no_text};
pub use rules::rule_sentence;
pub use said::{BreachInJournal, VerdictLine};
pub use scripts::{NodeKind, WrongInScript};
pub use settings::starts;
pub use sights::{LineSight, line_at, sight_of};
pub use told::{node_told, ring_end_told};
pub use words::{Byte, Word, has_leading_zero};

// It goes to another thread, and is seen by several.
fn is_sendable<T: Send + Sync>() {}

fn line_types_are_sendable() {
    is_sendable::<Wrong<'_>>();
    is_sendable::<WrongInScript<'_>>();
    is_sendable::<NodeKind>();
    is_sendable::<Byte>();
    is_sendable::<Word<'_>>();
    is_sendable::<LineSight>();
    is_sendable::<Remark>();
}

fn keyring_types_are_sendable() {
    is_sendable::<Detail>();
    is_sendable::<WrongInKeyring>();
}

fn command_types_are_sendable() {
    is_sendable::<Place>();
    is_sendable::<WrongUsage>();
    is_sendable::<WrongWords<'static>>();
}

fn node_types_are_sendable() {
    is_sendable::<Ending>();
    is_sendable::<WrongScript<'static>>();
}

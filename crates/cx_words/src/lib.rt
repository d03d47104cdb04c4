//! Cutting a file into lines and a line into words, and the words themselves: numbers, readings, names, services, caps,
//! accesses, parts of an object's address and bytes in hex.
//! What stands at the places of a line: the values that words spell there, what is known of the lines above, and what is
//! wrong with a word.
#![tactic(auto)]

mod choices;
mod cut;
mod faults;
mod judge;
mod known;
mod laws;
mod limits;
mod lines_limits;
mod lists;
mod named;
mod names;
mod numbers;
mod places;
mod sight;
mod texts;
mod values;

pub use choices::{
    CommandForm, LeftState, Modes, Side, command_named, modes_named, side_named, state_named,
};
pub use cut::{first_line, is_skipped, is_word, words};
pub use faults::{FaultAt, LineFault};
pub use judge::first_fault;
pub use known::Known;
pub use laws::word_laws;
pub use limits::{MOST_BYTES, is_short};
pub use lines_limits::{LONGEST_LIFE, MOST_DATA};
pub use lists::services;
pub use named::{access, name, service, ticket_service};
pub use names::Names;
pub use numbers::{number, reading};
pub use places::WordPlace;
pub use sight::{Hint, Shown, first_hint, hint_in, shown_of, word_at};
pub use texts::{caps, hex, part};
pub use values::{
    client, daemon, is_lossy, known_node, life, new_entity, new_service, operation_data, unleaked,
    unmoded, unseeded,
};

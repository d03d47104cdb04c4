//! What the programs of known answers of nodes have alike: rows that name nodes and what comes to them, the run that is played by them, and what a
//! step gave, as it is printed.
#![tactic(auto)]

mod draws;
mod events;
mod named;
mod nobody;
mod nodes;
mod rows;
mod run;
mod shown;

pub use draws::Draws;
pub use events::{Coming, number_of, reading_of, seed_of};
pub use named::{Member, Named, client_name, local, member_of};
pub use nobody::Nobody;
pub use nodes::{client_of, monitor_of, server_of};
pub use rows::Rows;
pub use run::Others;
pub use shown::{Ascii, Hex};

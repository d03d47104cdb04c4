//! The block cipher AES-128 and its inverse, after FIPS 197, and the tables of sixteen bytes that it looks up by one
//! instruction.
#![tactic(auto)]

mod basis;
mod cipher_rounds;
mod expansion;
mod field;
mod inverse_basis;
mod inverse_rounds;
mod inverse_steps;
mod lookup;
mod schedule;
mod steps;
mod tables;

pub use field::{inv_sbox, sbox};
pub use lookup::{are_sixteen, by_halves, high, looked_up, low, sum};
pub use schedule::Schedule;
pub use steps::add;

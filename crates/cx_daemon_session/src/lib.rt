//! What a turn of an incoming link comes to where the book of sessions may be asked: rows as the rules have them, behind what opened and what is
//! entered first.
//! Idents and reconnections of a client whose signature was right, over the replies of a book of sessions.
//! Messages with operations on an open incoming link, over the replies of a book of sessions.
//! A turn of an incoming link of a daemon, with the daemon's book of sessions.
#![tactic(auto)]

mod admissions;
mod answers;
mod asking;
mod entries;
mod handling;
mod hosting;
mod idents_idents;
mod idents_pending;
mod instructions;
mod messages_pending;
mod operations;
mod performing;
mod resumptions;
mod rows;
mod taking;
mod turn_idents;
mod turns;

pub use rows::{come, entered};
// What crates above name through this one, and so needn't list.
pub use admissions::admitted;
pub use cx_verifying::{IncomingTurn, Link, Served, SessionOwner, Stage, turned};
pub use hosting::{HostedTurn, hosts};
pub use idents_idents::ident_turn;
pub use idents_pending::{AdmittedTurn, Admitting, IdentTurn, ResumedTurn, Resuming};
pub use instructions::{Instruction, instruction_in};
pub use messages_pending::{CheckedTurn, Checking, OpenTurn, Taking};
pub use resumptions::resumed;
pub use taking::{checked, took};
pub use turns::open_turn;

// Each public type may be sent to another thread and shared with one.
fn is_sendable<T: Send + Sync>() {}

fn idents_types_are_sendable() {
    is_sendable::<Admitting>();
    is_sendable::<Resuming>();
    is_sendable::<IdentTurn>();
    is_sendable::<AdmittedTurn>();
    is_sendable::<ResumedTurn>();
}

fn messages_types_are_sendable() {
    is_sendable::<Instruction>();
    is_sendable::<Checking>();
    is_sendable::<Taking>();
    is_sendable::<OpenTurn>();
    is_sendable::<CheckedTurn>();
}

fn turn_types_are_sendable() {
    is_sendable::<HostedTurn>();
}

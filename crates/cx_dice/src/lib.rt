//! What a node draws at random: a draw of 384 bytes for each event, and the dice that it comes from.
#![tactic(auto)]

mod dice;
mod draw;
mod laws;
mod seeded;

pub use dice::Dice;
pub use draw::Draw;
pub use laws::draw_laws;
pub use seeded::SeedDice;

// Each public type may be sent to another thread and shared with one.
fn is_sendable<T: Send + Sync>() {}

fn all_are_sendable() {
    is_sendable::<Draw>();
    is_sendable::<SeedDice>();
}

//! The lines of a schedule: their forms, and what is wrong with words that are none.
#![tactic(auto)]

mod commands;
mod entity;
mod grammar;
mod knowing;
mod lines;
mod link_steps;
mod node_steps;
mod reading;
mod refusals;
mod sending;
mod settings;
mod sight;

pub use commands::LineCommand;
pub use grammar::line_laws;
pub use knowing::note;
pub use lines::{Head, Line, Numbered};
pub use link_steps::{LinkForm, LinkStep};
pub use node_steps::{NodeForm, NodeStep};
pub use reading::line_of;
pub use refusals::LineRefusal;
pub use settings::{Setting, SettingForm};
pub use sight::BadWord;

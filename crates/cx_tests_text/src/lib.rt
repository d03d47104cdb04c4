//! Tests of the crates of text files, a module for each crate, and nothing besides.
#![tactic(auto)]

#[cfg(test)]
mod base;
#[cfg(test)]
mod drill;
#[cfg(test)]
mod journal;
#[cfg(test)]
mod node_scripts;
#[cfg(test)]
mod schedule;
#[cfg(test)]
mod steps;
#[cfg(test)]
mod words;

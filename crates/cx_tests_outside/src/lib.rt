//! Tests of what lies outside of a node, a module for each crate, and nothing besides.
#![tactic(auto)]

#[cfg(test)]
mod clock;
#[cfg(test)]
mod links;

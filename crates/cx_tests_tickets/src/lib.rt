//! Tests of the crates of keyrings, tickets and sessions, a module for each crate, and nothing besides.
#![tactic(auto)]

#[cfg(test)]
mod authorize;
#[cfg(test)]
mod caps;
#[cfg(test)]
mod desk;
#[cfg(test)]
mod dice;
#[cfg(test)]
mod keep;
#[cfg(test)]
mod keyring;
#[cfg(test)]
mod keyserver;
#[cfg(test)]
mod rotate;
#[cfg(test)]
mod session;

//! Tests of the top call, over an input and a sink in memory and over a reader and a writer, and nothing besides.
#![tactic(auto)]

#[cfg(test)]
mod audits;
#[cfg(test)]
mod edges;
#[cfg(test)]
mod faults;
#[cfg(test)]
mod given;
#[cfg(test)]
mod keyrings;
#[cfg(test)]
mod limits;
#[cfg(test)]
mod replays;

//! Tests of channels, cells, merges of senders and runs over threads, through the public calls of the crates below.
//! They stand apart from these, so that each of these is proved once, without tests.
#![tactic(auto)]

#[cfg(test)]
mod cell;
#[cfg(test)]
mod channel;
#[cfg(test)]
mod checks;
#[cfg(test)]
mod packets;
#[cfg(test)]
mod runner;
#[cfg(test)]
mod senders;
#[cfg(test)]
mod waiting;
#[cfg(test)]
mod ways;

//! Tests of links, shells of all kinds, their states, and nests, through the public calls of the crates below. They are
//! a crate of their own, so that each crate below is proved once, without tests.
#![tactic(auto)]

#[cfg(test)]
mod checks;
#[cfg(test)]
mod directions;
#[cfg(test)]
mod fates;
#[cfg(test)]
mod generated;
#[cfg(test)]
mod inputs;
#[cfg(test)]
mod link_runs;
#[cfg(test)]
mod links;
#[cfg(test)]
mod long_run;
#[cfg(test)]
mod nests;
#[cfg(test)]
mod packets;
#[cfg(test)]
mod runs;
#[cfg(test)]
mod shells;
#[cfg(test)]
mod slow;
#[cfg(test)]
mod states;
#[cfg(test)]
mod words;
#[cfg(test)]
mod worlds;

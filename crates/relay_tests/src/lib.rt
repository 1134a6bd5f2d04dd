//! Tests of the live relay, of the line of shells that it stands on and of its program, through the public calls of the
//! crates below. They stand apart from these, so that each of these is proved once, without tests.
#![tactic(auto)]

#[cfg(test)]
mod address;
#[cfg(test)]
mod clocks;
#[cfg(test)]
mod line;
#[cfg(test)]
mod nests;
#[cfg(test)]
mod program;
#[cfg(test)]
mod relay;

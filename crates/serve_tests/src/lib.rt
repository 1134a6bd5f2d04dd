//! Tests of HTTP messages, of stores and their matching, of serving a store and of the recording proxy, through the
//! public calls of the crates below. They stand apart from these, so that each of these is proved once, without tests.
#![tactic(auto)]

#[cfg(test)]
mod frames;
#[cfg(test)]
mod links;
#[cfg(test)]
mod matching;
#[cfg(test)]
mod proxy;
#[cfg(test)]
mod server;
#[cfg(test)]
mod store;
#[cfg(test)]
mod texts;

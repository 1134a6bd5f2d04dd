//! Tests of whole command lines over files and a port in memory, of calls that fail, of threads whose turns are held or
//! counted, and of option words, through the public calls of the crates below. They stand apart from these, so that
//! each of these is proved once, without tests. What a command does with files alone is tried by the cases of
//! `checks/case`.
#![tactic(auto)]

#[cfg(test)]
mod case;
#[cfg(test)]
mod exchange;
#[cfg(test)]
mod failing;
#[cfg(test)]
mod program;
#[cfg(test)]
mod run;
#[cfg(test)]
mod serving;
#[cfg(test)]
mod turns;
#[cfg(test)]
mod wanting;
#[cfg(test)]
mod words;

//! Tests of the commands, as scripts over a host in memory: which files there are, what is asked for, what is said and what
//! stands after it.
//!
//! Expected values are worked by hand or come from the plain programs in `tests/outside`; none is this program's own output.
#![tactic(auto)]

#[cfg(test)]
mod bounding;
#[cfg(test)]
mod checking;
#[cfg(test)]
mod compiling;
#[cfg(test)]
mod files;
#[cfg(test)]
mod manifests;
#[cfg(test)]
mod playing;
#[cfg(test)]
mod refusing;
#[cfg(test)]
mod script;
#[cfg(test)]
mod stage;
#[cfg(test)]
mod taking_apart;

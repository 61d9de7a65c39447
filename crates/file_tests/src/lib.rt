//! Tests of the crates that read and write files, of the players and of the hosts, where no command shows what they do.
#![tactic(auto)]

#[cfg(test)]
mod fit;
#[cfg(test)]
mod hosts;
#[cfg(test)]
mod manifests;
#[cfg(test)]
mod other_makers;
#[cfg(test)]
mod players;
#[cfg(test)]
mod wave;
#[cfg(test)]
mod writers;

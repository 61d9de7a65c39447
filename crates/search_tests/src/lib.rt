//! Tests of the search of a segment and of what it stands on: lists in pages, layers of cells, certificates, their check, the beam, and the search.
#![tactic(auto)]

#[cfg(test)]
mod beams;
#[cfg(test)]
mod certificates;
#[cfg(test)]
mod checks;
#[cfg(test)]
mod fixtures;
#[cfg(test)]
mod layers;
#[cfg(test)]
mod pools;
#[cfg(test)]
mod searches;

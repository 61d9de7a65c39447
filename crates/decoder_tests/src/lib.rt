//! Tests of the decoders and of the floors and bounds over them, against values from outside: other decoders, programs that
//! try everything, and sums by hand.
#![tactic(auto)]

#[cfg(test)]
mod brr;
#[cfg(test)]
mod fixtures;
#[cfg(test)]
mod ima;
#[cfg(test)]
mod numbers;
#[cfg(test)]
mod rows;
#[cfg(test)]
mod spu;
#[cfg(test)]
mod strong;
#[cfg(test)]
mod windows;

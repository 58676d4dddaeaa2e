//! Tests of a depot and of a desk over one, by the machines of `depot::trial`. What a test has made
//! is left to the end of its process.
#![tactic(auto)]

#[cfg(test)]
mod adder;
#[cfg(test)]
mod at_once;
#[cfg(test)]
mod contention;
#[cfg(test)]
mod counters;
#[cfg(test)]
mod desks;
#[cfg(test)]
mod rows;
#[cfg(test)]
mod trial;
#[cfg(test)]
mod turns;

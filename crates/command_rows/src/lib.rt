//! What no run of the program shows: values of command lines, lines and counts, devices that fail,
//! and lists of events.
#![tactic(auto)]

#[cfg(test)]
mod export;
#[cfg(test)]
mod looking;
#[cfg(test)]
mod replaying;

//! Definitions that every layer speaks of, and no code: the server that answers one call at a time,
//! what is seen of an engine, its events, and what holds after each of them.
#![tactic(auto)]

pub mod volume;

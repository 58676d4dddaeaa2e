//! What `metrics` tells, typed by hand.
#![tactic(auto)]

#[cfg(test)]
mod requests;
#[cfg(test)]
mod text;

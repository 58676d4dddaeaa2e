//! What `filer export` is asked for, and what it counts and tells.

mod callers;
mod counting;
mod events;
mod lines;
mod names;
mod networks;
mod quotas;
mod reports;
mod sizes;

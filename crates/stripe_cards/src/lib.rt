//! The cards of a stripe: for each inode of a volume what its stripes have to know of it.
#![tactic(auto)]

mod card;
mod cards;
mod chunk;
mod counts;
mod owner;
mod packed;

pub use card::{Card, CardKind};
pub use cards::Cards;

//! A stripe of a volume: the cards of all inodes, and the blocks of the spans that lie in it.
#![tactic(auto)]

mod block;
mod blocks;
mod freed_blocks;
mod span;
mod spans;
mod stripe;

pub use freed_blocks::{FreedBlocks, GiveBack};
pub use stripe::Stripe;

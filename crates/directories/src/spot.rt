//! What the index of names has at a position.

use nfs_values::Cookie;

/// An entry in the index: its cookie, and the slot that it is guessed in.
#[derive(Clone, Copy)]
pub struct Spot {
    pub cookie: Cookie,
    /// Nothing rests on it but the time of a search.
    pub slot: u32,
    /// The hash of its name, by which the index is ordered.
    pub hash: u32,
}

//! What a seat knows. No value of these types is ever made: they exist in proofs.

use std::collections::LinkedList;

/// One step on a word: the value found, and the seat's shares in the word at that moment.
pub struct Read {
    pub word: u64,
    pub value: u64,
    pub shares: u64,
}

/// The parcels of a grant by node, none where the grant doesn't cover the node.
pub type Granted<P> = LinkedList<Option<P>>;

/// One entry of the history: the call, the reply, and the parcels by node as it left them.
pub struct Entry<P, C, R> {
    pub node: u64,
    pub call: C,
    pub reply: R,
    pub left: Granted<P>,
}

/// What one seat knows. P is a parcel, E an entry.
pub struct View<P, E> {
    /// The splits that the seat has left, and one.
    pub parts: u64,
    /// The parent of each node, the same in each view.
    pub tree: LinkedList<u64>,
    /// A word that was entered and found exclusive and has to be left again, or 0.
    pub unsure: u64,
    /// 1 where the ticket was read below 2^62 and no claim has used that up, or 0.
    pub looked: u64,
    /// The node whose grant was stamped and not yet given up, or 0.
    pub stamped: u64,
    /// The words that were entered for the call that runs, the last one first.
    pub path: LinkedList<u64>,
    /// By node, what was granted there, and after a stamp what the call left.
    pub held: LinkedList<Option<Granted<P>>>,
    /// The node whose slot is out with the seat, or 0.
    pub out: u64,
    /// The nodes whose slots are at home and empty, since the seat has their parcels.
    pub gone: LinkedList<u64>,
    /// The seat's steps on words, the last one first.
    pub reads: LinkedList<Read>,
    /// The parcels by node at the start, the same in each view.
    pub first: Granted<P>,
    /// The history as far as the seat has seen it.
    pub seen: LinkedList<E>,
    /// The places in the history of the entries that the seat, or one joined into it, made.
    pub mine: LinkedList<u64>,
}

/// The views of a seat: one between two calls, two while it meets another seat, none once it was
/// joined to another.
pub type Views<P, E> = LinkedList<View<P, E>>;

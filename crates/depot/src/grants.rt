//! What a call begins with: a grant, or a refusal.

ghost use Rattle.std.specs.Prelude.{◌≡◌};

use affinity::{Affinity, HasKind};
use parcels::Node;

/// The parcels of a node and of all nodes below it. A grant that is dropped gives nothing home.
#[derive(Drop)]
pub struct Grant<T: HasKind, N: Node<T>> {
    pub(crate) affinity: Affinity,
    pub(crate) held: N::Held,
}

/// Why a call doesn't begin.
#[derive(Clone, Copy)]
pub enum GrantRefusal {
    /// The word of a node was found taken.
    Busy { node: Affinity, word: u64 },
    /// The ticket was read at 2^62 or more.
    Worn,
}

impl GrantRefusal {
    ghost use Rattle.depot.specs.Words.{refusal_number};

    /// Its number, as scripts print it: 21 where a word was taken, 22 where the ticket was worn.
    pub fn number(self) -> u32
        ensures { result ≡ refusal_number self }
    {
        match self {
            GrantRefusal::Busy { node: _, word: _ } => 21,
            GrantRefusal::Worn => 22,
        }
    }
}

impl<T: HasKind, N: Node<T>> Grant<T, N> {
    ghost use Rattle.std.specs.Borrow.{Lends, sem};
    ghost use Rattle.depot.specs.contracts.grants.Grant.{the_row};
    ghost use Rattle.depot.specs.Words.{node_of, held_in, with_held};

    /// What was granted.
    pub fn affinity(&self) -> Affinity
        ensures { result ≡ node_of self.now }
    {
        self.affinity
    }

    /// The parcels, to be read and changed.
    pub fn held(&mut self) -> &mut N::Held
        ensures* writes_back { sem 𝓛 (Lends (the_row T.row N.row N.Held.row) N.Held.row
            self.entry result (with_held self.old)) }
        ensures value { result.now ≡ held_in self.old }
    {
        &mut self.held
    }
}

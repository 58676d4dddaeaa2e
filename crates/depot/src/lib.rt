//! Grants of the parcels of a tree, to threads, without a lock and without memory. A call begins
//! with a grant of a node's parcels and of those below it, or a word refuses it; it is finished by
//! one step, which puts its entry into the history, or put back.
//!
//! `specs/Words.antt` has the words of the clauses, `specs/Grants.antt` what calls do to a seat,
//! and `specs/lemmas/` what callers want to know of both.
#![tactic(auto)]

mod calls;
mod claiming;
mod closed;
mod depot;
mod entered;
mod grants;
mod hold;
mod homing;
pub mod laws;
mod looking_back;
mod meeting;
mod path;
mod plays;
mod seats;
mod slots;
mod stamps;
mod steps;
mod table;
pub mod trial;

pub use depot::Depot;
pub use entered::Entered;
pub use grants::{Grant, GrantRefusal};
pub use seats::{Seat, TooManySeats};

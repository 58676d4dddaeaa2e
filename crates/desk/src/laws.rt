//! The laws of a desk: a depot with one seat, whose grants are lent to many workers. There is no
//! program code here.
//!
//! `specs/laws/Books.antt` has the model, in which no view, word or share stands: the parcels at
//! the start, the history, and what each worker was lent. `specs/laws/Calls.antt` says what calls
//! do to it, and `specs/laws/Backing.antt` how a seat's view backs it. The laws from a depot's
//! clauses to these are in `specs/laws/lemmas/`, for any machine.

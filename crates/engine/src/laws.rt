//! What an engine's calls run on: the books of its desk, and the server and parts that they stand
//! for.
//!
//! `specs/laws/Store.antt` says what the books have to be for the world that is seen, and the
//! lemmas in `specs/laws/lemmas/` lead from what the desk's calls do to the model's events.

mod laws;

pub use laws::{calls_agree, work_is_the_models};

//! Lists that only clauses read.
#![tactic(auto)]

mod history;

pub use history::History;

//! What holds of the definitions of `nfs_model`. The functions do nothing: their clauses are the
//! laws.
#![tactic(auto)]

pub mod laws;
pub mod rows;

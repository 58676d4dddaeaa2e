//! What calls come to that are on more than what is under one Volume Logical: on Volume, on an
//! Aggregate, or on all that is stored.

mod laws;

pub use laws::{census_is_right, filesystem_status_is_right, growing_calls_are_right};

//! What calls are refused by the parcels under Volume Logical.

mod laws;

pub use laws::refusals_are_right;

//! What GETATTR and SETATTR come to by the parcels under Volume Logical.

mod laws;

pub use laws::attribute_calls_are_right;

//! The home of a call: the node that it tries first, by what its handle names.

mod home;

pub use home::{home_of, named_by};

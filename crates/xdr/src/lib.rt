//! Values of XDR (RFC 4506), read from bytes and written as bytes.
#![tactic(auto)]

mod cursor;
mod fault;
mod laws;
mod put;

pub use cursor::Cursor;
pub use fault::Fault;
pub use laws::{one_spelling, reading_all_is_exact, reading_is_exact};
pub use put::{put_bool, put_fixed, put_opaque, put_u32, put_u64};

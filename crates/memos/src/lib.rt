//! What is remembered of calls, for a client that sends one again (RFC 1813 section 4.5).
#![tactic(auto)]

mod change;
mod entry;
mod memos;
mod place;
mod results;
mod same;
mod text;

pub use memos::Memos;
pub use results::Remembered;

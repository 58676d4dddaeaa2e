//! The examples of the README at the top of the repository, as they stand there.
#![tactic(auto)]

mod replying;
mod serving;
#[cfg(test)]
mod tests;

pub use replying::reply_len;
pub use serving::serve_one;

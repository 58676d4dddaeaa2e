//! The rule by which threads share a depot: what each seat knows, and what holds of all seats,
//! words and slots between any two atomic steps. There is no program code here. The laws are
//! theorems about the definitions; their functions do nothing.
//!
//! `specs/rule/Completions.antt` has a form in which a machine's calls can be told, for which the
//! laws of `Machine` are proved in `specs/rule/lemmas/Completions.antt`.
#![tactic(auto)]

pub mod laws;
pub mod machine;
pub mod view;

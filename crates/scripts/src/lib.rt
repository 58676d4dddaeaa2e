//! Scripts of events that are run, with a line printed for each, and what ends the program early.
#![tactic(auto)]

mod fault;
mod playing;
mod printing;
mod script;

pub use fault::ProgramFault;
pub use playing::replay;
pub use printing::print_fault;

//! The program's command line, and the commands that it names.
#![tactic(auto)]

mod admin_printing;
mod admin_running;
mod admin_words;
mod byte_size;
mod choice;
mod export_printing;
mod export_words;
mod exporting;
mod limits;
mod machine;
mod metrics_listener;
mod names;
mod peer_words;
mod port_mapping;
mod rule_printing;
mod running;
mod words;
mod wrong_value;

pub use admin_running::Growing;
pub use choice::Command;
pub use exporting::Exporting;
pub use machine::Machine;
pub use names::{Names, NoNames};
pub use running::{perform, program};
pub use scripts::{ProgramFault, print_fault};
pub use words::{command, command_told};

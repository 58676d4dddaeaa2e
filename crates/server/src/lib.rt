//! A filer with the threads of its lanes: opened, served to the connections of a listener, stopped
//! and closed.
#![tactic(auto)]

mod accepting;
mod arrivals;
mod closing;
mod common;
mod company;
mod counting;
mod crew;
mod crowd;
mod ends;
mod entrance;
mod event_count;
mod fault;
mod guests;
mod hearing;
mod inquiry;
mod keys;
mod lane_tends;
mod late_word;
mod mailbox;
mod opening;
mod owed;
mod pace;
mod printing;
mod privilege;
mod round;
mod running;
mod seconds;
mod serve_fault;
mod serving;
mod socket;
mod station;
mod stop_word;
mod stopping;
mod task;
mod telling;
mod time_limit;
mod traffic;
mod turning;
mod untended;
mod usage;
mod visits;

pub use fault::ServerFault;
pub use opening::{begun_now, run_now};
pub use running::{serve, serve_told};
pub use socket::Socket;
pub use turns::ENOUGH_STOCKED;

//! A depot with one seat for many workers. Nothing of the seat shows above: a desk is told by the
//! parcels at the start, the history, and what each worker was lent (`laws`).
//!
//! `begin_node`, `work_node` or `work_on_node`, `finish_node` and `put_back_node` are a call on a
//! node of one kind for who has a seat of their own: such a grant is no larger than what it lends.
#![tactic(auto)]

mod calls;
mod closing;
mod desk;
mod grant;
mod grants;
mod kinds;
pub mod laws;
mod node_task;
mod nodes;
mod opening;
mod putting;
mod queries;
mod refusal;
mod slot;
mod taken;
mod task;
mod work_on;
mod working;

pub use desk::Desk;
pub use grant::{LargeGrant, NodeGrant, SmallGrant};
pub use kinds::{NodeKinds, ParcelKinds};
pub use node_task::{TaskNode, work_node};
pub use nodes::{begin_node, finish_node, go_on_node, put_back_node};
pub use refusal::BeginRefusal;
pub use slot::Slot;
pub use task::Task;
pub use work_on::{WorkOn, work_on_node};

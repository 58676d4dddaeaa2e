//! What a thread of workers does beside their turns, and what workers leave: which tend is next and
//! when the thread may sleep, the clock, how long it waits for others; all workers put together,
//! with what is left and the filer's one history.
#![tactic(auto)]

mod carried;
mod closing;
mod draining;
mod ended;
mod everything;
mod gathered;
mod held;
mod holding;
mod joining;
mod left;
mod moments;
mod patience;
mod refusal;
mod room;
mod tending;

pub use carried::{push_batch, push_kept};
pub use closing::close;
pub use draining::drain_behind;
pub use ended::Ended;
pub use everything::gather;
pub use held::Held;
pub use holding::hold;
pub use left::Left;
pub use moments::time_now;
pub use patience::Patience;
pub use refusal::StartRefusal;
pub use room::{MOST_WORKERS, Room};
pub use tending::{Found, Tending, found_by};

//! A pool: threads, each of which runs a worker of one filer, until they are stopped. Its workers
//! are split from the first, and in the end put together again, with what is left and the filer's
//! one history.
#![tactic(auto)]

mod collecting;
mod commons;
mod one_tend;
mod pool;
mod pool_worker;
mod putting_back;
mod round;
mod serving;
mod splits;
mod starting;
mod stop_word;
mod task;
mod tending;
mod worked;
mod working;

pub use granted_calls::{Answer, Filer, Gate, Place, Turn, Unwatched};
pub use one_tend::tend_turn;
pub use outboxes::Outboxes;
pub use pool::Pool;
pub use putting_back::put_back;
pub use tends::{
    Ended, Found, Left, MOST_WORKERS, Patience, Room, StartRefusal, Tending, close, drain_behind,
    found_by, gather, push_batch, push_kept, time_now,
};
pub use turns::Worker;
pub use worked::Worked;
pub use working::worker_turn;

//! Laws of the parcels of a filer: the parcels as a run begins are sound, a filer's steps are a
//! machine's, and what a handler promises of the part that it holds makes a step.

mod laws;

pub use laws::{
    begins_sound, counts_fit, grants_are_known, grants_are_sized, handlers_make_steps,
    histories_keep_sizes, histories_replay, layouts_agree, parts_partition, sets_are_seen,
    steps_are_lawful, volumes_tell_all,
};

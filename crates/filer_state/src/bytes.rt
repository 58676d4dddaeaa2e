//! What READ and WRITE come to by a stripe, by the parcels under Volume Logical, and by those under
//! Volume.

mod laws;

pub use laws::{
    reading_calls_are_right, reads_are_permitted, writes_are_permitted, writing_calls_are_right,
};

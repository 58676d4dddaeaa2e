//! What is left of a filer that someone else has still.

use crate::left::Left;
use depot::Grant;
use filer_state::Files;
use parcels::{Parcel, SerialNode};

/// All parcels of a filer, under a grant of its only seat that stays open, and what its workers
/// left.
#[derive(Drop)]
pub struct Held {
    pub grant: Grant<Parcel<Files>, SerialNode>,
    pub left: Left,
}

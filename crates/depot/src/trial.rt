//! Machines to try a depot with: numbers that calls add to, and tokens that calls move between
//! nodes and hands. The tests are in `depot_rows`, the measurements in `bench`.

pub mod adding;
pub mod lending;

//! What LOOKUP, READDIR, READDIRPLUS, COMMIT, ACCESS, FSINFO, PATHCONF and a MNT below a root come
//! to by the parcels under Volume Logical.

mod laws;

pub use laws::name_calls_are_right;

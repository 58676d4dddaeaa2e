//! What calls that change a volume come to by the parcels under Volume Logical: SETATTR, CREATE,
//! MKDIR, SYMLINK, MKNOD, REMOVE, RMDIR, RENAME and LINK.

mod laws;

pub use laws::{
    dropping_calls_are_right, linking_calls_are_right, making_calls_are_right,
    renaming_calls_are_right, setting_calls_are_right,
};

//! Arguments and results of NFS version 3 (RFC 1813) as XDR.
#![tactic(auto)]

mod arguments;
mod arms;
mod bad;
mod decode;
mod encode;
mod laws;
mod lists;
mod mounting;
mod plus;
mod results;

pub use arguments::{decode_args, decode_call, decode_call_into, decode_in_place};
pub use bad::Bad;
pub use laws::arguments_are_exact;
pub use nfs_values::{
    ADMIN_PROGRAM, Answer, Attributes, AuthFault, BlockNumber, BytesRead, BytesToWrite, Call,
    Change, ConnectionNumber, Cookie, CreateMode, Credential, Exports, FileHandle, FileKind,
    Fileid, GroupList, MOUNT_PROGRAM, Moment, MountCall, MountResults, NFS_PROGRAM, Name, Named,
    PriorAttributes, Procedure, Refusal, Reply, SetAttributes, SetTime, Status, Target, Verifier,
    VolumeNumber, WorkerNumber, answer,
};
pub use results::{encode_result, size_of_result, write_result};

//! Values of NFS version 3 (RFC 1813) and RPC (RFC 5531): what calls ask and what replies tell.
#![tactic(auto)]

pub mod answer;
mod attributes;
mod bytes;
mod call;
mod caller;
mod credential;
mod handle;
mod limits;
mod moment;
mod mount;
mod mount_path;
mod name;
mod number;
mod opaque_bytes;
mod ownership;
mod procedure;
mod procedure_set;
mod reply;
mod route;
mod set;
mod short_name;
mod special;
mod standing;
mod status;
mod target;
mod verifier;

pub use answer::Answer;
pub use attributes::{Attributes, Change, FileKind, PriorAttributes};
pub use bytes::{BytesRead, BytesToWrite, room_to_read};
pub use call::Call;
pub use caller::{Caller, PeerAddress};
pub use credential::{Credential, GroupList};
pub use handle::{FileHandle, HandleMap, Named};
pub use limits::{
    BLOCK_BYTES, COUNT_LIMIT, HANDLE_BYTES, MILLISECONDS_OF_A_SECOND, MOST_LINKS, MOST_TEXT,
    NANOSECONDS_OF_A_MILLISECOND, NANOSECONDS_OF_A_SECOND, SPAN_BLOCKS, SPAN_BYTES,
};
pub use moment::Moment;
pub use mount::{Exports, MountCall, MountResults, export_path};
pub use mount_path::{MOST_PATH, below_volume, call_of_path, is_absolute, next_part, volume_named};
pub use name::Name;
pub use number::{BlockNumber, ConnectionNumber, Cookie, Fileid, VolumeNumber, WorkerNumber};
pub use ownership::Ownership;
pub use procedure::{ADMIN_PROGRAM, MOUNT_PROGRAM, NFS_PROGRAM, PROCEDURES, Procedure};
pub use procedure_set::ProcedureSet;
pub use reply::{AuthFault, Refusal, Reply};
pub use route::Route;
pub use set::{CreateMode, SetAttributes, SetTime};
pub use special::{Device, SpecialType};
pub use standing::{Squash, Standing};
pub use status::Status;
pub use target::Target;
pub use verifier::Verifier;

//! Whether arguments are the same.

ghost use Rattle.std.specs.Prelude.{◌≡◌, ◌==◌, ◌&&◌};
ghost use Rattle.std.specs.Option.{option_map};
ghost use Rattle.nfs_model.specs.Names.{same_name};
ghost use Rattle.nfs_model.specs.Shown.{same_moment};
ghost use Rattle.nfs_model.specs.Serial.Same.{
  same_caller,
  same_device,
  same_guard,
  same_kind,
  same_mode,
  same_number,
  same_set,
  same_special,
  same_time,
};
ghost use Rattle.nfs_values.specs.Attributes.{kind_of};
ghost use Rattle.nfs_values.specs.Caller.{caller_of, peer_of};
ghost use Rattle.nfs_values.specs.Moment.{moment_of};
ghost use Rattle.nfs_values.specs.Set.{mode_of, set_of, time_of};
ghost use Rattle.nfs_values.specs.Special.{device_of, special_of};

use nfs_values::{
    Caller, CreateMode, Device, FileKind, Moment, PeerAddress, SetAttributes, SetTime, SpecialType,
};

/// Whether two lists of bytes are one.
pub(crate) fn is_same_list(bytes: &[u8], other: &[u8]) -> bool
    ensures { result ≡ same_name bytes.now other.now }
{
    bytes == other
}

/// Whether two moments are one.
fn is_same_moment(one: Moment, other: Moment) -> bool
    ensures { result ≡ same_moment (moment_of one) (moment_of other) }
{
    one.seconds == other.seconds && one.nanoseconds == other.nanoseconds
}

/// Whether two calls have the same guard.
pub(crate) fn is_same_guard(one: Option<Moment>, other: Option<Moment>) -> bool
    ensures { result ≡ same_guard (option_map moment_of one) (option_map moment_of other) }
{
    match one {
        None => match other {
            None => true,
            Some(_) => false,
        },
        Some(moment) => match other {
            None => false,
            Some(second) => is_same_moment(moment, second),
        },
    }
}

/// Whether two calls set a number alike.
fn is_same_number(one: Option<u32>, other: Option<u32>) -> bool
    ensures { result ≡ same_number one other }
{
    match one {
        None => match other {
            None => true,
            Some(_) => false,
        },
        Some(number) => match other {
            None => false,
            Some(second) => number == second,
        },
    }
}

/// Whether two calls set a size alike.
fn is_same_size(one: Option<u64>, other: Option<u64>) -> bool
    ensures { result ≡ same_number one other }
{
    match one {
        None => match other {
            None => true,
            Some(_) => false,
        },
        Some(size) => match other {
            None => false,
            Some(second) => size == second,
        },
    }
}

/// Whether two calls set a time alike.
fn is_same_time(one: SetTime, other: SetTime) -> bool
    ensures { result ≡ same_time (time_of one) (time_of other) }
{
    match one {
        SetTime::Keep => match other {
            SetTime::Keep => true,
            SetTime::ServerTime => false,
            SetTime::ClientTime(_) => false,
        },
        SetTime::ServerTime => match other {
            SetTime::Keep => false,
            SetTime::ServerTime => true,
            SetTime::ClientTime(_) => false,
        },
        SetTime::ClientTime(moment) => match other {
            SetTime::Keep => false,
            SetTime::ServerTime => false,
            SetTime::ClientTime(second) => is_same_moment(moment, second),
        },
    }
}

/// Whether two calls set the same attributes.
pub(crate) fn is_same_set(one: &SetAttributes, other: &SetAttributes) -> bool
    ensures { result ≡ same_set (set_of one.now) (set_of other.now) }
{
    is_same_number(one.mode, other.mode)
        && is_same_number(one.uid, other.uid)
        && is_same_number(one.gid, other.gid)
        && is_same_size(one.size, other.size)
        && is_same_time(one.atime, other.atime)
        && is_same_time(one.mtime, other.mtime)
}

/// Whether two calls create a file in the same way.
pub(crate) fn is_same_mode(one: &CreateMode, other: &CreateMode) -> bool
    ensures { result ≡ same_mode (mode_of one.now) (mode_of other.now) }
{
    match one {
        CreateMode::Unchecked(set) => match other {
            CreateMode::Unchecked(second) => is_same_set(set, second),
            CreateMode::Guarded(_) => false,
            CreateMode::Exclusive(_) => false,
        },
        CreateMode::Guarded(set) => match other {
            CreateMode::Unchecked(_) => false,
            CreateMode::Guarded(second) => is_same_set(set, second),
            CreateMode::Exclusive(_) => false,
        },
        CreateMode::Exclusive(verifier) => match other {
            CreateMode::Unchecked(_) => false,
            CreateMode::Guarded(_) => false,
            CreateMode::Exclusive(second) => is_same_list(&verifier.0, &second.0),
        },
    }
}

/// Whether two devices are one.
fn is_same_device(one: Device, other: Device) -> bool
    ensures { result ≡ same_device (device_of one) (device_of other) }
{
    one.major == other.major && one.minor == other.minor
}

/// Whether two calls make the same of what is neither a file nor a directory.
fn is_same_special(one: SpecialType, other: SpecialType) -> bool
    ensures { result ≡ same_special (special_of one) (special_of other) }
{
    match (one, other) {
        (SpecialType::SymbolicLink, SpecialType::SymbolicLink) => true,
        (SpecialType::Fifo, SpecialType::Fifo) => true,
        (SpecialType::Socket, SpecialType::Socket) => true,
        (SpecialType::BlockDevice(device), SpecialType::BlockDevice(second)) => {
            is_same_device(device, second)
        }
        (SpecialType::CharacterDevice(device), SpecialType::CharacterDevice(second)) => {
            is_same_device(device, second)
        }
        _ => false,
    }
}

/// Whether two calls make the same kind of node.
pub(crate) fn is_same_kind(one: FileKind, other: FileKind) -> bool
    ensures { result ≡ same_kind (kind_of one) (kind_of other) }
{
    match (one, other) {
        (FileKind::Regular, FileKind::Regular) => true,
        (FileKind::Directory, FileKind::Directory) => true,
        (FileKind::Special(special), FileKind::Special(second)) => {
            is_same_special(special, second)
        }
        _ => false,
    }
}

/// Whether calls come from the same address and port.
#[tactic(auto, using(crate::proofs::Peers::same_peers))]
fn is_same_peer(one: PeerAddress, other: PeerAddress) -> bool
    ensures { result ≡ (peer_of one == peer_of other) }
{
    one.address == other.address && one.port == other.port
}

/// Whether two callers are one; what either may do isn't compared. Numbers come first, since they
/// differ most often.
pub(crate) fn is_same_caller(one: &Caller, other: &Caller) -> bool
    ensures { result ≡ same_caller (caller_of one.now) (caller_of other.now) }
{
    one.xid == other.xid
        && is_same_peer(one.peer, other.peer)
        && one.credential.uid == other.credential.uid
        && one.credential.gid == other.credential.gid
        && one.credential.gids.is_same(&other.credential.gids)
}

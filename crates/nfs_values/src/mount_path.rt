//! Paths that MNT is asked of (RFC 1813 appendix I, section 5.2.1).

ghost use Rattle.std.specs.Prelude.{◌≡◌, ◌+◌, ◌≤◌, length, [], MatchOption};
ghost use Rattle.std.specs.List.{find, range_with_len};
ghost use Rattle.nfs_model.specs.Names.{same_name};
ghost use Rattle.nfs_model.specs.Serial.Mount.{is_absolute, is_telling, names_volume, mnt_call};
ghost use Rattle.nfs_model.specs.Serial.Mount.{parts, parts_below};
ghost use Rattle.nfs_values.specs.Call.{call_of};
ghost use Rattle.nfs_values.specs.MountPath.{before_slash, behind_slash, BeginsWith};
ghost use Rattle.nfs_values.specs.MountPath.{mount_call_below};

use crate::call::Call;
use crate::handle::{FileHandle, Named};
use crate::mount::{MountCall, export_path};
use crate::name::Name;
use crate::number::{Fileid, VolumeNumber};

/// MNTPATHLEN (RFC 1813 appendix I, section 5.1.4).
pub const MOST_PATH: usize = 1_024;

/// The volumes whose number is one digit, which alone have a path.
const MOST_VOLUMES: u32 = 10;

/// Whether two parts of paths are one.
fn is_same(part: &[u8], other: &[u8]) -> bool
    ensures { result ≡ same_name part.now other.now }
{
    part == other
}

/// Whether a path begins with `/`.
pub fn is_absolute(path: &[u8]) -> bool
    ensures { result ≡ is_absolute path.now }
{
    match path.first() {
        Some(character) => *character == b'/',
        None => false,
    }
}

/// How many bytes stand before the first `/`.
fn size_before_slash(path: &[u8]) -> usize
    ensures size { result ≡ length (before_slash path.now) }
    ensures within { result ≤ length path.now }
{
    let mut size = 0;
    let mut rest = path;
    while let Some((character, others)) = rest.split_first() {
        if *character == b'/' {
            return size;
        }
        size += 1;
        rest = others;
    }
    size
}

/// What stands before the first `/`, and what is behind it; all and nothing where there is none.
fn cut(path: &[u8]) -> (&[u8], &[u8])
    ensures part { result.0.now ≡ before_slash path.now }
    ensures behind { result.1.now ≡ behind_slash path.now }
{
    let (part, behind) = path.split_at(size_before_slash(path));
    match behind.split_first() {
        Some((_slash, rest)) => (part, rest),
        None => (part, behind),
    }
}

/// Whether a part says something: it isn't empty, and not `.`.
fn is_telling(part: &[u8]) -> bool
    ensures { result ≡ is_telling part.now }
{
    !part.is_empty() && !is_same(part, b".")
}

/// The first part of a path that says something, and the path behind it.
pub fn next_part(path: &[u8]) -> Option<(&[u8], &[u8])>
    ensures { MatchOption result (parts path.now ≡ [])
        (λ next. BeginsWith path.now next.0.now next.1.now) }
{
    let mut path = path;
    while !path.is_empty() {
        let (part, behind) = cut(path);
        if is_telling(part) {
            return Some((part, behind));
        }
        path = behind;
    }
    None
}

/// What of a path is below the volume that its first part names.
pub fn below_volume(path: &[u8]) -> &[u8]
    ensures { parts result.now ≡ parts_below path.now }
{
    match next_part(path) {
        Some((_volume, behind)) => behind,
        None => path,
    }
}

/// Whether a part is the name of a volume, of at most ten.
fn names_volume(part: &[u8], volume: u32) -> bool
    requires { volume + 1 ≤ 10 }
    ensures { result ≡ names_volume part.now volume }
{
    is_same(part, &export_path(volume)[1..])
}

/// Which of this many volumes from one on a part names.
pub fn volume_named(part: &[u8], first: u32, count: u32) -> Option<u32>
    requires { first + count ≤ 10 }
    ensures { result ≡ find (names_volume part.now) (range_with_len first count) }
{
    if count == 0 {
        return None;
    }
    if names_volume(part, first) {
        return Some(first);
    }
    volume_named(part, first + 1, count - 1)
}

/// The volume below whose root a path leads, if it does.
fn volume_above(path: &[u8]) -> Option<u32>
    ensures { mnt_call path.now ≡ mount_call_below path.now result }
{
    if path.len() > MOST_PATH || !is_absolute(path) {
        return None;
    }
    let (first, behind) = next_part(path)?;
    let volume = volume_named(first, 0, MOST_VOLUMES)?;
    let _other = next_part(behind)?;
    Some(volume)
}

/// The call of a MNT of a path: of a root, or below one.
pub fn call_of_path(path: Name) -> Call
    ensures { call_of result ≡ mnt_call path }
{
    match volume_above(path.as_bytes()) {
        Some(volume) => Call::MountBelow {
            root: FileHandle::naming(Named {
                volume: VolumeNumber(volume),
                fileid: Fileid::ROOT,
            }),
            path,
        },
        None => Call::Mount(MountCall::Mount { path }),
    }
}

//! Paths that MNT is asked of, and the call that each makes (our profile).

use crate::bytes::{are_equal, holds, is_handle};
use nfs_values::{Call, MountCall, Name, call_of_path};
use std::mem;
use std::process::Abort;

/// Paths, and of those that lead below the root of a volume its number.
const PATHS: [(&str, Option<u8>); 25] = [
    ("/vol0/a", Some(0)),
    ("/vol0/a/b", Some(0)),
    ("//vol7//a/./b/", Some(7)),
    ("/./vol2/a", Some(2)),
    ("/vol0/./a", Some(0)),
    ("/vol9/a", Some(9)),
    ("/vol1/vol0", Some(1)),
    ("/vol0/..", Some(0)),
    ("/vol0/../vol1", Some(0)),
    ("/vol0/...", Some(0)),
    ("/vol0", None),
    ("/vol0/", None),
    ("/vol0//./", None),
    ("/", None),
    ("//", None),
    ("/.", None),
    ("", None),
    ("vol0/a", None),
    ("./vol0/a", None),
    ("/a/b", None),
    ("/../vol0/a", None),
    ("/vol/a", None),
    ("/vol10/a", None),
    ("/vol:/a", None),
    ("/Vol0/a", None),
];

/// Whether a call is the MNT of a path that leads below the root of this volume, or of a root.
fn asks_below(call: &Call, asked: &[u8], volume: Option<u8>) -> bool {
    match call {
        Call::MountBelow { root, path } => {
            let number = volume.unwrap_or(255);
            let is_root = is_handle(root, &[0, 0, 0, number, 0, 0, 0, 0, 0, 0, 0, 1]);
            is_root && are_equal(path.as_bytes(), asked)
        }
        Call::Mount(MountCall::Mount { path }) => {
            volume.is_none() && are_equal(path.as_bytes(), asked)
        }
        _ => false,
    }
}

#[test]
fn paths_make_calls(rt: HostRuntime) {
    for (path, volume) in &PATHS {
        let asked = path.as_bytes();
        let kept = Name::copied(rt.alloc(), asked).expect(&rt, "no memory");
        let call = call_of_path(kept);
        let is_asked = asks_below(&call, asked, *volume);
        mem::forget(call);
        holds(&rt, path, is_asked);
    }
}

/// Looks which call a path of this many bytes makes, that begins with `/vol0/`.
fn of_size(rt: &(impl Abort + AllocGlobal), size: usize, volume: Option<u8>) {
    let mut path = Vec::new(rt.alloc());
    path.extend_from_slice(b"/vol0/").expect(rt, "no memory");
    path.resize(size, b'a').expect(rt, "no memory");
    let asked = path.clone().expect(rt, "no memory");
    let call = call_of_path(Name::new(path));
    let is_asked = asks_below(&call, &asked, volume);
    mem::forget((call, asked));
    holds(rt, "a long path", is_asked);
}

#[test]
fn long_paths_make_calls(rt: HostRuntime) {
    // MNTPATHLEN (RFC 1813 appendix I, section 5.1.4)
    of_size(&rt, 1024, Some(0));
    of_size(&rt, 1025, None);
}

//! How callers stand, and who owns the roots. `trials/command_lines` has what is told of it, and
//! lines that are refused.

use crate::export::lines::options_of;
use crate::looking::holds;
use nfs_values::{Ownership, Squash, Standing};
use std::net::SocketAddr;
use std::process::Abort;

/// How the callers of a peer stand, by a command line.
fn standing_at(rt: &(impl Abort + AllocGlobal), words: &[&str], peer: &str) -> Standing {
    let peer = peer.parse::<SocketAddr>().ok().expect(rt, "no address");
    options_of(rt, words).rules.standing_at(&peer)
}

#[test]
fn callers_are_checked_and_nobody_is_squashed(rt: HostRuntime) {
    let standing = standing_at(&rt, &["filer", "export"], "127.0.0.1:40000");
    holds(&rt, standing.is_checked && !standing.reads_only);
    holds(&rt, standing.squash == Squash::NoOne);
    let anonymous = (standing.anonymous_uid, standing.anonymous_gid);
    holds(&rt, anonymous == (65_534, 65_534));
}

#[test]
fn callers_are_not_checked(rt: HostRuntime) {
    let words = ["filer", "export", "--no-permission-checks"];
    let standing = standing_at(&rt, &words, "127.0.0.1:40000");
    holds(&rt, !standing.is_checked && !standing.reads_only);
}

/// Networks in networks, of which some only read.
const NETWORKS: [&str; 12] = [
    "filer",
    "export",
    "--allow",
    "10.0.0.0/8",
    "--allow-read",
    "10.1.0.0/16",
    "--allow",
    "10.1.2.0/24",
    "--allow-read",
    "10.1.2.0/24",
    "--allow",
    "10.1.2.3",
];

/// Peers, and whether they only read.
const READERS: [(&str, bool); 6] = [
    ("10.9.0.1:700", false),
    ("10.1.9.9:700", true),
    ("10.1.2.9:700", true),
    ("10.1.2.3:700", false),
    ("[::ffff:10.1.9.9]:700", true),
    ("[::ffff:10.9.0.1]:700", false),
];

#[test]
fn networks_that_only_read(rt: HostRuntime) {
    for (peer, reads_only) in READERS {
        let standing = standing_at(&rt, &NETWORKS, peer);
        holds(&rt, standing.reads_only == reads_only);
    }
}

/// Peers, and for whom their callers are taken where uid 0 is anonymous and ports are asked.
const PORTS: [(&str, Squash); 4] = [
    ("127.0.0.1:1", Squash::Root),
    ("127.0.0.1:1023", Squash::Root),
    ("127.0.0.1:1024", Squash::Everyone),
    ("127.0.0.1:65535", Squash::Everyone),
];

#[test]
fn ports_that_root_alone_has(rt: HostRuntime) {
    let words = ["filer", "export", "--privileged-ports", "--squash", "root"];
    for (peer, squash) in PORTS {
        holds(&rt, standing_at(&rt, &words, peer).squash == squash);
    }
}

/// Options, and the mode, the uid and the gid of roots.
const ROOTS: [(&[&str], (u16, u32, u32)); 7] = [
    (&["filer", "export"], (0o755, 0, 0)),
    (&["filer", "export", "--root-mode", "1777"], (0o1777, 0, 0)),
    (&["filer", "export", "--root-mode", "7777"], (0o7777, 0, 0)),
    (
        &["filer", "export", "--squash", "root"],
        (0o755, 65_534, 65_534),
    ),
    (
        &["filer", "export", "--anon", "7:8", "--squash", "all"],
        (0o755, 7, 8),
    ),
    (
        &["filer", "export", "--anon", "7:8", "--squash", "none"],
        (0o755, 0, 0),
    ),
    (
        &["filer", "export", "--root-mode", "0", "--squash", "all"],
        (0, 0, 0),
    ),
];

#[test]
fn owners_of_roots(rt: HostRuntime) {
    for (words, (mode, uid, gid)) in ROOTS {
        let wanted = Ownership { mode, uid, gid };
        holds(&rt, options_of(&rt, words).plan.root == wanted);
    }
}

//! What `filer export` tells people of its callers as it starts.

use nfs_values::{Ownership, Squash, Standing};
use server_options::{Options, PeerRules};
use std::fmt;

/// The bits of a mode by which the group may make and remove names in a directory.
const GROUP_CHANGES: u16 = 0o030;

/// Those by which all others may.
const OTHERS_CHANGE: u16 = 0o003;

/// Who may make and remove names in a root.
#[derive(Clone, Copy)]
enum RootWriters {
    /// More than its owner, as its mode says.
    Several,
    /// Its owner alone.
    Owner,
    /// Nobody: no caller is taken for its owner.
    Nobody,
}

/// Who may make and remove names in a root, where callers are checked and stand so.
fn writers_of(root: &Ownership, standing: &Standing) -> RootWriters {
    let mode = root.mode;
    if mode & GROUP_CHANGES == GROUP_CHANGES || mode & OTHERS_CHANGE == OTHERS_CHANGE {
        return RootWriters::Several;
    }
    let is_squashed = root.uid == 0 && standing.squash != Squash::NoOne;
    if is_squashed && standing.anonymous_uid != 0 {
        return RootWriters::Nobody;
    }
    RootWriters::Owner
}

/// For whom callers are taken that are checked.
fn write_callers<W: fmt::Write>(lines: &mut W, rules: &PeerRules) -> fmt::Result {
    let standing = &rules.standing;
    let (uid, gid) = (standing.anonymous_uid, standing.anonymous_gid);
    lines.write_str("callers: checked by owner, group and mode; ")?;
    match standing.squash {
        Squash::NoOne => lines.write_str("as whom they claim to be, uid 0 too")?,
        Squash::Root => write!(lines, "uid 0 is taken as {uid}:{gid}")?,
        Squash::Everyone => write!(lines, "all are taken as {uid}:{gid}")?,
    }
    if rules.is_port_asked {
        write!(lines, "; from ports from 1024 on all are {uid}:{gid}")?;
    }
    lines.write_str("\n")
}

/// Who owns the roots, and who alone may write there, if not several may.
fn write_roots<W: fmt::Write>(lines: &mut W, root: &Ownership, standing: &Standing) -> fmt::Result {
    let (uid, gid, mode) = (root.uid, root.gid, root.mode);
    write!(lines, "roots: of {uid}:{gid}, mode {mode:04o}")?;
    match writers_of(root, standing) {
        RootWriters::Several => {}
        RootWriters::Owner => write!(lines, "; only uid {uid} may write there")?,
        RootWriters::Nobody => lines.write_str("; nobody may write there")?,
    }
    lines.write_str("\n")
}

/// Who may connect, for whom callers are taken, and who may write the roots.
pub(crate) fn write_rules<W: fmt::Write>(lines: &mut W, options: &Options) -> fmt::Result {
    let rules = &options.rules;
    let peers = &rules.peers;
    if !rules.standing.is_checked {
        return writeln!(
            lines,
            "may connect: {peers}; modes are told and guard nothing"
        );
    }
    writeln!(lines, "may connect: {peers}")?;
    write_callers(lines, rules)?;
    write_roots(lines, &options.plan.root, &rules.standing)
}

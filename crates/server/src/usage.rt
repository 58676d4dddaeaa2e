//! How many inodes a volume has and uses, as its server tells (FSSTAT, RFC 1813 section 3.3.18).

use admin_client::next_record;
use rpc_msg::HandleForm;
use std::alloc::{AllocError, Global};
use std::io::{Read, Write};
use xdr::{Cursor, put_u32};

/// The bit of a fragment's header that marks the record's last (RFC 5531 section 11).
const LAST_FRAGMENT: u32 = 0x8000_0000;

/// The xid of a call. Its reply is the first record that comes behind it.
const XID: u32 = 1;

/// What a call of FSSTAT begins with (RFC 5531 section 9): its xid, a call, RPC version 2, program
/// 100003, version 3, procedure 18, and no credential or verifier.
const HEAD: [u32; 10] = [XID, 0, 2, 100_003, 3, 18, 0, 0, 0, 0];

/// What its reply begins with: the xid, a reply, accepted, no verifier, success; then the status 0,
/// and that attributes follow.
const REPLY_HEAD: [u32; 8] = [XID, 1, 0, 0, 0, 0, 0, 1];

/// The words of attributes (fattr3), and those of the bytes of a volume behind them.
const SKIPPED: usize = 21 + 6;

/// The fileid of a volume's root.
const ROOT: u32 = 1;

/// Appends unsigned integers (RFC 4506 section 4.2).
fn put_words(out: &mut Vec<u8>, words: &[u32]) -> Result<(), AllocError> {
    for word in words {
        put_u32(out, *word)?;
    }
    Ok(())
}

/// The record of FSSTAT of a volume's root, whose handle is spelled in this form: one fragment, the
/// last (RFC 5531 section 11), of the head and of the handle with its size.
fn call_of(alloc: Global, volume: u32, form: HandleForm) -> Result<Vec<u8>, AllocError> {
    let mut framed = Vec::new(alloc);
    match form {
        HandleForm::Plain => {
            put_words(&mut framed, &[LAST_FRAGMENT + 56])?;
            put_words(&mut framed, &HEAD)?;
            put_words(&mut framed, &[12, volume, 0, ROOT])?;
        }
        HandleForm::OfRun(run) => {
            let (high, low) = ((run >> 32) as u32, (run % (1 << 32)) as u32);
            put_words(&mut framed, &[LAST_FRAGMENT + 64])?;
            put_words(&mut framed, &HEAD)?;
            put_words(&mut framed, &[20, volume, 0, ROOT, high, low])?;
        }
    }
    Ok(framed)
}

/// How many inodes a volume may have, and has.
#[derive(Clone, Copy)]
pub(crate) struct InodeUse {
    pub(crate) total: u64,
    pub(crate) used: u64,
}

/// How many inodes there may be and are by a reply of FSSTAT, if it tells that.
fn inodes_in(reply: &[u8]) -> Option<InodeUse> {
    let mut from = Cursor::new(reply);
    for wanted in &REPLY_HEAD {
        if from.u32().ok()? != *wanted {
            return None;
        }
    }
    for _ in 0..SKIPPED {
        let _skipped = from.u32().ok()?;
    }
    let total = from.u64().ok()?;
    let free = from.u64().ok()?;
    Some(InodeUse {
        total,
        used: total.saturating_sub(free),
    })
}

/// Asks a server over a connected stream how many inodes a volume has and uses.
pub(crate) fn inodes<S: Read + Write>(
    stream: &mut S,
    alloc: Global,
    volume: u32,
    form: HandleForm,
) -> Option<InodeUse> {
    let call = call_of(alloc, volume, form).ok()?;
    stream.write_all(&call).ok()?;
    match next_record(alloc, stream) {
        Ok(reply) => inodes_in(&reply),
        Err(_fault) => None,
    }
}

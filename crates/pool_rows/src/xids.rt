//! Xids of messages, in the order of these.

use granted_calls::Envelope;
use std::process::Abort;

/// Adds the xids of messages.
pub(crate) fn add_xids(
    rt: &(impl Abort + AllocGlobal),
    xids: &mut Vec<u32>,
    messages: &[Envelope],
) {
    for message in messages {
        xids.push(message.origin().xid).expect(rt, "no memory");
    }
}

/// Looks whether each xid from one to before another is there, once and in this order. Others may
/// stand between them.
pub(crate) fn has_all(rt: &impl Abort, xids: &[u32], from: u32, until: u32) {
    let mut next = from;
    for xid in xids {
        if (from..until).contains(xid) {
            assert_eq!(rt; *xid, next);
            next += 1;
        }
    }
    assert_eq!(rt; next, until);
}

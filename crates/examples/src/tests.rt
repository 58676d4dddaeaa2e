//! What the examples answer.

use crate::replying::reply_len;

/// A NULL call of NFS version 3 (RFC 5531 section 9, RFC 1813 section 3.3.0), in one fragment.
const NULL_CALL: [u8; 44] = [
    0x80, 0, 0, 40, 0, 0, 0, 7, 0, 0, 0, 0, 0, 0, 0, 2, 0, 1, 0x86, 0xa3, 0, 0, 0, 3, 0, 0, 0, 0,
    0, 0, 0, 0, 0, 0, 0, 0, 0, 0, 0, 0, 0, 0, 0, 0,
];

#[test]
fn a_null_call_is_answered(rt: HostRuntime) {
    assert_eq!(rt; reply_len(rt.alloc(), &NULL_CALL), Some(28));
}

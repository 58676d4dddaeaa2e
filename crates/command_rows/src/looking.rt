//! Texts that are made, and what is looked at.

use std::process::Abort;

/// Appends a piece of text, this many times.
pub(crate) fn put(rt: &impl Abort, text: &mut String, piece: &str, times: usize) {
    for _ in 0..times {
        holds(rt, text.push_str(piece).is_ok());
    }
}

/// Pieces of text, one after the other.
pub(crate) fn joined(rt: &(impl Abort + AllocGlobal), pieces: &[&str]) -> String {
    let mut text = String::new(rt.alloc());
    for piece in pieces {
        put(rt, &mut text, piece, 1);
    }
    text
}

/// Looks whether these are the bytes that are wanted.
pub(crate) fn same(rt: &impl Abort, bytes: &[u8], wanted: &[u8]) {
    assert_eq!(rt; bytes, wanted);
}

/// Looks whether this is so.
pub(crate) fn holds(rt: &impl Abort, is_so: bool) {
    assert!(rt; is_so);
}

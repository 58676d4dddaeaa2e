//! Bytes, put together and compared.

ghost use Rattle.std.specs.Prelude.{◌≤◌, length};
ghost use Rattle.nfs_types.specs.Results.{answer_bytes};
ghost use Rattle.nfs_values.specs.Answer.{answer_of};

use nfs_values::answer::ReadResults;
use nfs_values::{Answer, BytesRead, FileHandle, HANDLE_BYTES, room_to_read};
use std::process::Abort;

/// Looks whether this is so, as a row of this name has it.
pub(crate) fn holds(rt: &impl Abort, row: &str, is_so: bool) {
    assert!(rt; is_so, "{row}");
}

/// Whether these are the bytes that are wanted.
pub(crate) fn are_equal(bytes: &[u8], wanted: &[u8]) -> bool {
    bytes == wanted
}

/// Looks whether these are the bytes that a row wants.
pub(crate) fn same(rt: &impl Abort, row: &str, bytes: &[u8], wanted: &[u8]) {
    holds(rt, row, are_equal(bytes, wanted));
}

/// Whether these are the bytes of a handle.
pub(crate) fn is_handle(handle: &FileHandle, wanted: &[u8]) -> bool {
    are_equal(handle.bytes_in(&mut [0; HANDLE_BYTES]), wanted)
}

/// Parts of words, one after the other, as bytes: of each word the highest byte first.
pub(crate) fn spelled(rt: &(impl Abort + AllocGlobal), parts: &[&[u32]]) -> Vec<u8> {
    let mut bytes = Vec::new(rt.alloc());
    for words in parts {
        for word in *words {
            let added = bytes.extend_from_slice(&word.to_be_bytes());
            added.expect(rt, "no memory");
        }
    }
    bytes
}

/// Looks whether these are bytes that parts of words spell.
pub(crate) fn spells(rt: &(impl Abort + AllocGlobal), row: &str, bytes: &[u8], parts: &[&[u32]]) {
    same(rt, row, bytes, &spelled(rt, parts));
}

/// The answer of a READ that gives these bytes, the last of a file.
pub(crate) fn read_answer(rt: &(impl Abort + AllocGlobal), bytes: &[u8]) -> Answer
    requires { length bytes.now ≤ 8 }
    ensures { length (answer_bytes (answer_of result)) ≤ 40 }
{
    let mut place = room_to_read(rt.alloc(), bytes.len()).expect(rt, "no memory");
    place.extend_from_slice(bytes).expect(rt, "no memory");
    Answer::Read(Ok(ReadResults {
        eof: true,
        bytes: BytesRead::new(place),
    }))
}

//! Bytes of files in calls and in replies, where they stand.

ghost use Rattle.std.specs.Prelude.{◌≡◌, ◌+◌, ◌-◌, ◌%◌, ◌≤◌, [], ◌++◌, length, take, drop};
ghost use Rattle.std.specs.Prelude.{replicate, vec_len, vec_capacity, IfOk};

use std::alloc::{AllocError, Global};
use std::marker::Model;
use std::mem;

/// The bytes that a WRITE writes, where they stand in the record that it came in.
pub struct BytesToWrite {
    record: Vec<u8>,
    from: usize,
    size: usize,
}

// By hand, so that crates above have no proof of the drop of each of its parts.
impl Drop for BytesToWrite {
    fn drop(self) {
        let BytesToWrite {
            record: _,
            from: _,
            size: _,
        } = self;
    }
}

impl Model for BytesToWrite {
    ghost use Rattle.std.specs.Prelude.{List, ℕ, ◌+◌, ◌≤◌, length, take, drop};

    ghost Value = { List ℕ };

    ghost view = { λ b. take b.size (drop b.from b.record.items) };

    ghost invariant = { λ b. b.from + b.size ≤ length b.record.items };
}

impl BytesToWrite {
    /// All bytes of a vector.
    pub fn all(bytes: Vec<u8>) -> BytesToWrite
        ensures { result ≡ bytes.items }
    {
        let size = bytes.len();
        BytesToWrite {
            record: bytes,
            from: 0,
            size,
        }
    }

    /// This many bytes of a record, from one on.
    pub fn part(record: Vec<u8>, from: usize, size: usize) -> BytesToWrite
        requires { from + size ≤ length record.items }
        ensures { result ≡ take size (drop from record.items) }
    {
        BytesToWrite { record, from, size }
    }

    /// The bytes.
    pub fn as_slice(&self) -> &[u8]
        ensures { result.now ≡ self.now }
    {
        &self.record[self.from..][..self.size]
    }

    /// How many bytes its memory has room for. Nothing is promised of it.
    pub fn capacity(&self) -> usize {
        self.record.capacity()
    }

    /// Takes its memory, with nothing in it, and leaves no bytes here.
    pub fn take_memory(&mut self, alloc: Global) -> Vec<u8>
        ensures taken { result.items ≡ [] }
        ensures none { self.new ≡ [] }
    {
        self.from = 0;
        self.size = 0;
        let mut memory = mem::replace(&mut self.record, Vec::new(alloc));
        memory.clear();
        memory
    }
}

/// How many bytes stand before the bytes of a READ in the record of its reply (RFC 1813 section
/// 3.3.6, RFC 5531 sections 9 and 11).
const HEAD: usize = 48;

/// The bytes that a READ gives, behind room for what stands before them in their reply's record,
/// and before room for their padding. None need no room.
pub struct BytesRead {
    place: Vec<u8>,
}

// By hand, so that crates above have no proof of the drop of each of its parts.
impl Drop for BytesRead {
    fn drop(self) {
        let BytesRead { place: _ } = self;
    }
}

impl Model for BytesRead {
    ghost use Rattle.std.specs.Prelude.{List, ℕ, drop};
    ghost use Rattle.nfs_values.specs.Bytes.{HasRoom};

    ghost Value = { List ℕ };

    ghost view = { λ b. drop 48 b.place.items };

    ghost invariant = { λ b. HasRoom b.place };
}

/// A vector for this many bytes that are to be read behind what it has.
pub fn room_to_read(alloc: Global, count: usize) -> Result<Vec<u8>, AllocError>
    requires { count ≤ 131072 }
    ensures head { IfOk result (λ room. length room.items ≡ 48) }
    ensures room { IfOk result (λ room. vec_len room + count + 3 ≤ vec_capacity room) }
{
    let mut room = Vec::with_capacity(alloc, HEAD + count + 3)?;
    room.extend_from_slice(&[0; HEAD])?;
    Ok(room)
}

/// Puts a head before the bytes.
fn put_head(place: &mut [u8], head: &[u8])
    requires head { length head.now ≡ 48 }
    requires place { 48 ≤ length place.old }
    ensures { place.new ≡ head.now ++ drop 48 place.old }
{
    place[..HEAD].copy_from_slice(head);
}

/// Puts zeros behind the bytes, up to a multiple of four.
fn pad(place: &mut Vec<u8>)
    requires head { 48 ≤ length place.old.items }
    requires room { vec_len place.old + (4 - (vec_len place.old - 48) % 4) % 4
        ≤ vec_capacity place.old }
    ensures { place.new.items
        ≡ place.old.items ++ replicate ((4 - (length place.old.items - 48) % 4) % 4) 0 }
{
    let padding = (4 - (place.len() - HEAD) % 4) % 4;
    place.extend_from_slice(&[0; 4][..padding]).unwrap();
}

impl BytesRead {
    /// No bytes.
    pub fn none(alloc: Global) -> BytesRead
        ensures { result ≡ [] }
    {
        BytesRead {
            place: Vec::new(alloc),
        }
    }

    /// The bytes that were read behind the first 48 of a vector from `room_to_read`.
    pub fn new(place: Vec<u8>) -> BytesRead
        requires head { 48 ≤ length place.items }
        requires room { vec_len place + 3 ≤ vec_capacity place }
        ensures { result ≡ drop 48 place.items }
    {
        BytesRead { place }
    }

    /// The bytes.
    pub fn as_slice(&self) -> &[u8]
        ensures { result.now ≡ self.now }
    {
        if self.place.is_empty() {
            &self.place
        } else {
            &self.place[HEAD..]
        }
    }

    /// Puts the bytes, and zeros up to a multiple of four, behind a head of 48 bytes, and leaves
    /// none here. The head is copied before the bytes, whose vector takes the head's place. It
    /// takes no memory.
    pub fn move_behind(&mut self, head: &mut Vec<u8>)
        requires { length head.old.items ≡ 48 }
        ensures moved { head.new.items ≡ head.old.items ++ (self.old
            ++ replicate ((4 - length self.old % 4) % 4) 0) }
        ensures none { self.new ≡ [] }
    {
        if self.place.is_empty() {
            return;
        }
        put_head(&mut self.place, head);
        pad(&mut self.place);
        mem::swap(&mut self.place, head);
    }
}

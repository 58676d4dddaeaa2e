//! Items read side by side.

use crate::chunk::Chunk;
use crate::page::{Page, chunk_on, place};

/// Of how many fileids the items are read side by side.
pub const GROUP: usize = 16;

/// The chunks of fileids on their pages.
pub fn chunks_on<'a, C>(
    pages: &[Option<&'a Page<C>>; GROUP],
    fileids: &[u64; GROUP],
) -> [Option<&'a C>; GROUP] {
    let mut chunks = [None; GROUP];
    for at in 0..GROUP {
        if let Some(page) = pages[at] {
            chunks[at] = chunk_on(page, place(fileids[at]));
        }
    }
    chunks
}

/// The sum of what stands for the items of fileids in their chunks.
pub fn sum_of<C: Chunk, F: Fn(C::Item) -> u64>(
    chunks: &[Option<&C>; GROUP],
    fileids: &[u64; GROUP],
    of: F,
) -> u64
    requires { F.IsAlwaysCallable of }
{
    let mut sum: u64 = 0;
    for (chunk, fileid) in chunks.iter().zip(fileids.iter()) {
        if let Some(item) = item_in(*chunk, *fileid) {
            sum = sum.wrapping_add(of(item));
        }
    }
    sum
}

/// The item of a fileid in a chunk, if both are there.
fn item_in<C: Chunk>(chunk: Option<&C>, fileid: u64) -> Option<C::Item> {
    chunk?.get(fileid)
}

//! A hole before a block and a cut inside it, and overwrites that stay within.

use crate::same::same;
use nfs_values::{BlockNumber, Fileid, Moment, Ownership, Verifier};
use std::mem;
use std::process::Abort;
use stripe_cards::CardKind;
use stripes::{FreedBlocks, GiveBack, Stripe};

const FILE: Fileid = Fileid(2);

const MOMENT: Moment = Moment {
    seconds: 9,
    nanoseconds: 0,
};

/// What the card of the file tells where it has this many bytes.
fn of_size(size: u64) -> CardKind {
    let owner = Ownership::ROOT;
    CardKind::File { size, owner }
}

/// A stripe of 8, of a volume with files of 16,777,216 bytes at most, with a file of 8,195 bytes.
fn stripe(rt: &(impl Abort + AllocGlobal)) -> Stripe {
    let mut stripe = Stripe::new(rt.alloc(), Verifier([1, 2, 3, 4, 5, 6, 7, 8]), 8, 1 << 24);
    stripe.set_card(FILE, of_size(8195)).expect(rt, "no memory");
    stripe
}

/// Fills blocks of the file, each with its number.
fn fill(rt: &impl Abort, stripe: &mut Stripe, blocks: &[(u64, BlockNumber)]) {
    for (block, number) in blocks {
        stripe
            .insert_block(FILE, *block, *number)
            .expect(rt, "no memory");
    }
}

/// Writes bytes at an offset of the file, and tells whether it did.
fn overwrite(stripe: &mut Stripe, offset: u64, written: &[u8]) -> bool {
    let size = written.len() as u64;
    if 262_144 - offset % 262_144 < size {
        return false;
    }
    stripe.overwrite(FILE, offset, written, MOMENT)
}

/// The stripe with the last block of the file, and with all its bytes written.
fn written(rt: &(impl Abort + AllocGlobal)) -> Stripe {
    let mut stripe = stripe(rt);
    fill(rt, &mut stripe, &[(2, BlockNumber(7))]);
    overwrite(&mut stripe, 8192, b"xxx");
    stripe
}

/// Looks whether these are the bytes of the file from an offset on.
fn reads(rt: &(impl Abort + AllocGlobal), stripe: &Stripe, offset: u64, wanted: &[u8]) {
    let n = wanted.len();
    let mut bytes = Vec::with_capacity(rt.alloc(), n).expect(rt, "no memory");
    if offset % 262_144 + n as u64 <= 262_144 && bytes.capacity() >= n {
        stripe.read(FILE, offset, n, &mut bytes);
    }
    same(rt, &bytes.as_slice(), &wanted);
}

/// Offsets, what is written there once the last block is filled, and whether it is.
const WRITES: [(u64, &[u8], bool); 3] = [
    (8191, b"xxxx", false),
    (8192, b"xxxx", false),
    (8192, b"xxx", true),
];

#[test]
fn overwrites(rt: HostRuntime) {
    let mut stripe = stripe(&rt);
    same(&rt, &overwrite(&mut stripe, 8192, b"xxx"), &false);
    fill(&rt, &mut stripe, &[(2, BlockNumber(7))]);
    let filled = (stripe.is_filled(FILE, 2), stripe.is_filled(FILE, 1));
    same(&rt, &filled, &(true, false));
    for (offset, bytes, is_done) in &WRITES {
        same(&rt, &overwrite(&mut stripe, *offset, bytes), is_done);
    }
    let left = (stripe.take_touch(FILE), stripe.largest());
    same(&rt, &left, &(Some(MOMENT), 1 << 24));
    mem::forget(stripe);
}

#[test]
fn hole(rt: HostRuntime) {
    let stripe = written(&rt);
    let zeros = vec![in rt.alloc(); 0; 8192].expect(&rt, "no memory");
    reads(&rt, &stripe, 0, &zeros);
    mem::forget(stripe);
}

/// Looks whether a cut to a size frees these blocks next.
fn frees(rt: &impl Abort, stripe: &mut Stripe, size: u64, wanted: &[BlockNumber]) {
    let mut freed = FreedBlocks::new();
    let more = stripe.cut(FILE, size, GiveBack::Later, &mut freed);
    same(rt, &more, &true);
    same(rt, &freed.as_slice(), &wanted);
}

/// Looks whether a cut to a size frees no block any more.
fn frees_nothing(rt: &impl Abort, stripe: &mut Stripe, size: u64) {
    let mut freed = FreedBlocks::new();
    let more = stripe.cut(FILE, size, GiveBack::Later, &mut freed);
    same(rt, &more, &false);
}

#[test]
fn cut_within_a_block(rt: HostRuntime) {
    let mut stripe = written(&rt);
    let past = [
        (63, BlockNumber(6)),
        (3, BlockNumber(8)),
        (4096, BlockNumber(9)),
    ];
    fill(&rt, &mut stripe, &past);
    frees(&rt, &mut stripe, 8193, &[BlockNumber(8), BlockNumber(6)]);
    frees(&rt, &mut stripe, 8193, &[BlockNumber(9)]);
    frees_nothing(&rt, &mut stripe, 8193);
    stripe
        .set_card(FILE, of_size(8200))
        .expect(&rt, "no memory");
    reads(&rt, &stripe, 8192, b"\x78\0\0\0\0\0\0\0");
    mem::forget(stripe);
}

#[test]
fn cut_to_nothing(rt: HostRuntime) {
    let mut stripe = written(&rt);
    frees(&rt, &mut stripe, 0, &[BlockNumber(7)]);
    frees_nothing(&rt, &mut stripe, 0);
    mem::forget(stripe);
}

#[test]
fn no_bytes(rt: HostRuntime) {
    let mut stripe = stripe(&rt);
    same(&rt, &overwrite(&mut stripe, 0, b""), &true);
    same(&rt, &overwrite(&mut stripe, 8196, b""), &true);
    same(&rt, &stripe.take_touch(FILE), &None);
    mem::forget(stripe);
}

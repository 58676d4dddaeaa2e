//! Ranges of more than 1,024 blocks, and how many words a search looks at.

ghost use Rattle.std.specs.Prelude.{◌<◌};

use crate::blocks::small_range;
use crate::same::same;
use nfs_values::BlockNumber;
use std::mem;
use std::process::Abort;
use vbn_ranges::{Batch, DeadBlocks, Range, RangeFault};

/// A range of 2,048 blocks that isn't in use.
fn range_of_2048(rt: &(impl Abort + AllocGlobal), number: u32) -> Range
    requires { number < 16 }
{
    Range::new(rt.alloc(), 2_048, number).expect(rt, "no memory")
}

/// A range of 16,777,216 blocks that isn't in use.
fn largest_range(rt: &(impl Abort + AllocGlobal), number: u32) -> Range
    requires { number < 16 }
{
    Range::new(rt.alloc(), 16_777_216, number).expect(rt, "no memory")
}

/// Dead blocks of these numbers, where a range has 2,048 blocks.
fn dead_of_2048(rt: &(impl Abort + AllocGlobal), numbers: &[u32]) -> DeadBlocks {
    let mut dead = DeadBlocks::new(rt.alloc(), 2_048).expect(rt, "no memory");
    for number in numbers {
        if *number < 32_768 {
            dead.mark(BlockNumber(*number));
        }
    }
    dead
}

/// Dead blocks of these numbers, where a range has 16,777,216 blocks.
fn dead_of_largest(rt: &(impl Abort + AllocGlobal), numbers: &[u32]) -> DeadBlocks {
    let mut dead = DeadBlocks::new(rt.alloc(), 16_777_216).expect(rt, "no memory");
    for number in numbers {
        if *number < 268_435_456 {
            dead.mark(BlockNumber(*number));
        }
    }
    dead
}

/// The first and the last block of a batch, and how many it has.
fn ends(batch: &Batch) -> (Option<BlockNumber>, Option<BlockNumber>, usize) {
    let blocks = batch.as_slice();
    (
        blocks.first().copied(),
        blocks.last().copied(),
        blocks.len(),
    )
}

/// Looks whether a batch has this many blocks, from a first one to a last.
fn is_from(rt: &impl Abort, batch: &Batch, first: u32, last: u32, count: usize) {
    let wanted = (Some(BlockNumber(first)), Some(BlockNumber(last)), count);
    same(rt, &ends(batch), &wanted);
}

#[test]
fn range_of_2048_blocks(rt: HostRuntime) {
    let mut range = range_of_2048(&rt, 14);
    same(&rt, &(range.number(), range.range_blocks()), &(14, 2_048));
    same(&rt, &range.take(1).err(), &Some(RangeFault::NoSuchRange));
    range.put_in_use();
    same(&rt, &range.free_count(), &2_048);
    let batch = range.take(65).expect(&rt, "refused");
    is_from(&rt, &batch, 28_672, 28_735, 64);
    same(&rt, &range.free_count(), &1_984);
    let ranges = (batch.range(1_024), batch.range(2_048), batch.range(4_096));
    same(&rt, &ranges, &(Some(28), Some(14), Some(7)));
    mem::forget(range);
}

/// Takes all blocks of a range of 2,048 in use but the last 64.
fn take_most(range: &mut Range) {
    for _ in 0..31 {
        let _ = range.take(64);
    }
}

#[test]
fn last_of_2048_blocks(rt: HostRuntime) {
    let mut range = range_of_2048(&rt, 15);
    range.put_in_use();
    take_most(&mut range);
    let batch = range.take(64).expect(&rt, "refused");
    is_from(&rt, &batch, 32_704, 32_767, 64);
    let none = range.take(64).expect(&rt, "refused");
    same(&rt, &(none.len(), range.free_count()), &(0, 0));
    same(
        &rt,
        &(range.give(&batch), range.free_count()),
        &(Ok(()), 64),
    );
    mem::forget(range);
}

#[test]
fn blocks_beside_a_range_of_2048(rt: HostRuntime) {
    let mut dead = dead_of_2048(&rt, &[30_720, 30_719, 28_672, 28_671]);
    let mut range = range_of_2048(&rt, 14);
    range.put_in_use();
    take_most(&mut range);
    let _ = range.take(64);
    let below = dead.take_batch();
    is_from(&rt, &below, 28_671, 28_671, 1);
    let own = dead.take_batch();
    is_from(&rt, &own, 28_672, 30_719, 2);
    let above = dead.take_batch();
    is_from(&rt, &above, 30_720, 30_720, 1);
    let given = [range.give(&below), range.give(&above), range.give(&own)];
    let not_held = Err(RangeFault::NotHeld);
    same(&rt, &given, &[not_held, not_held, Ok(())]);
    same(&rt, &range.free_count(), &2);
    mem::forget(range);
    mem::forget(dead);
}

#[test]
fn largest_of_ranges(rt: HostRuntime) {
    let mut range = largest_range(&rt, 15);
    range.put_in_use();
    same(&rt, &range.free_count(), &16_777_216);
    let batch = range.take(64).expect(&rt, "refused");
    is_from(&rt, &batch, 251_658_240, 251_658_303, 64);
    let ranges = (batch.range(16_777_216), batch.range(8_388_608));
    same(&rt, &ranges, &(Some(15), Some(30)));
    let next = range.take(1).expect(&rt, "refused");
    is_from(&rt, &next, 251_658_304, 251_658_304, 1);
    same(&rt, &range.give(&batch), &Ok(()));
    same(&rt, &range.free_count(), &16_777_215);
    mem::forget(range);
}

#[test]
fn dead_of_largest_ranges(rt: HostRuntime) {
    let marked = [
        268_435_455,
        268_435_391,
        251_658_240,
        16_777_216,
        16_777_215,
    ];
    let mut dead = dead_of_largest(&rt, &marked);
    same(&rt, &dead.len(), &5);
    is_from(&rt, &dead.take_batch(), 16_777_215, 16_777_215, 1);
    is_from(&rt, &dead.take_batch(), 16_777_216, 16_777_216, 1);
    same(&rt, &dead.take(), &Some(BlockNumber(251_658_240)));
    is_from(&rt, &dead.take_batch(), 268_435_391, 268_435_455, 2);
    same(&rt, &(dead.is_empty(), dead.take()), &(true, None));
    mem::forget(dead);
}

/// How many words a search for this many blocks looks at, and how many of them give one.
fn looks(rt: &impl Abort, range: &mut Range, n: usize) -> (usize, usize) {
    let (_, looks) = range.take_counted(n).expect(rt, "refused");
    (looks.looked, looks.giving)
}

#[test]
fn words_looked_at(rt: HostRuntime) {
    let mut small = small_range(&rt, 0);
    small.put_in_use();
    same(&rt, &looks(&rt, &mut small, 64), &(17, 1));
    let mut large = range_of_2048(&rt, 0);
    large.put_in_use();
    same(&rt, &looks(&rt, &mut large, 32), &(8, 1));
    same(&rt, &looks(&rt, &mut large, 64), &(15, 2));
    same(&rt, &looks(&rt, &mut large, 0), &(1, 0));
    mem::forget(large);
}

//! Ranges at the edges of their words, the stock, and dead blocks of two ranges.

ghost use Rattle.std.specs.Prelude.{◌≡◌, ◌<◌};

use crate::same::same;
use nfs_values::BlockNumber;
use std::mem;
use std::process::Abort;
use vbn_ranges::{Batch, DeadBlocks, Range, RangeFault, Stock};

/// A range of 1,024 blocks that isn't in use.
pub(crate) fn small_range(rt: &(impl Abort + AllocGlobal), number: u32) -> Range
    requires { number < 16 }
{
    Range::new(rt.alloc(), 1_024, number).expect(rt, "no memory")
}

/// Takes four blocks at most, and looks whether they are these.
fn takes(rt: &impl Abort, range: &mut Range, wanted: &[BlockNumber]) {
    let batch = range.take(4).expect(rt, "refused");
    same(rt, &batch.as_slice(), &wanted);
}

/// Dead blocks of these numbers.
fn dead(rt: &(impl Abort + AllocGlobal), numbers: &[u32]) -> DeadBlocks
    ensures { result.range_blocks ≡ 1024 }
{
    let mut dead = DeadBlocks::new(rt.alloc(), 1_024).expect(rt, "no memory");
    for number in numbers {
        if *number < 16384 {
            dead.mark(BlockNumber(*number));
        }
    }
    dead
}

/// Leaves no block of a range free but those of a batch.
fn leave(range: &mut Range, free: &Batch) {
    for _ in 0..16 {
        let _ = range.take(64);
    }
    let _ = range.give(free);
}

#[test]
fn lowest_free(rt: HostRuntime) {
    let mut dead = dead(&rt, &[1023, 63, 128, 64, 127]);
    let mut range = small_range(&rt, 0);
    range.put_in_use();
    leave(&mut range, &dead.take_batch());
    mem::forget(dead);
    same(&rt, &range.free_count(), &5);
    let lowest = [
        BlockNumber(63),
        BlockNumber(64),
        BlockNumber(127),
        BlockNumber(128),
    ];
    takes(&rt, &mut range, &lowest);
    takes(&rt, &mut range, &[BlockNumber(1023)]);
    same(&rt, &range.free_count(), &0);
}

#[test]
fn numbers_of_refusals(rt: HostRuntime) {
    let numbers = [
        RangeFault::NoSuchRange.number(),
        RangeFault::NotHeld.number(),
    ];
    same(&rt, &numbers, &[41, 42]);
}

#[test]
fn range_not_in_use(rt: HostRuntime) {
    let mut range = small_range(&rt, 15);
    let refused = range.take(1).err();
    range.put_in_use();
    let batch = range.take(0).expect(&rt, "refused");
    same(&rt, &refused, &Some(RangeFault::NoSuchRange));
    same(&rt, &(batch.len(), range.free_count()), &(0, 1024));
}

#[test]
fn most_at_once(rt: HostRuntime) {
    let mut range = small_range(&rt, 15);
    range.put_in_use();
    let batch = range.take(200).expect(&rt, "refused");
    let taken = batch.as_slice();
    same(&rt, &(taken.len(), range.free_count()), &(64, 960));
    let ends = (taken.first().copied(), taken.last().copied());
    let wanted = (Some(BlockNumber(15360)), Some(BlockNumber(15423)));
    same(&rt, &ends, &wanted);
}

#[test]
fn given_back_once(rt: HostRuntime) {
    let mut range = small_range(&rt, 15);
    range.put_in_use();
    let batch = range.take(200).expect(&rt, "refused");
    let given = [
        range.give(&batch),
        range.give(&batch),
        small_range(&rt, 15).give(&batch),
    ];
    let not_held = Err(RangeFault::NotHeld);
    same(&rt, &given, &[Ok(()), not_held, not_held]);
    same(&rt, &range.free_count(), &1024);
}

/// The dead blocks 2,000 to 2,099, of which one was marked twice.
fn hundred_dead(rt: &(impl Abort + AllocGlobal)) -> DeadBlocks {
    let mut dead = dead(rt, &[2047]);
    for number in 2000..2100 {
        dead.mark(BlockNumber(number));
    }
    dead
}

#[test]
fn dead_of_two_ranges(rt: HostRuntime) {
    let mut dead = hundred_dead(&rt);
    let count = dead.len();
    let first = dead.take_batch().len();
    let one = dead.take();
    let rest = dead.take_batch();
    let none = dead.take();
    same(&rt, &(count, first, rest.len()), &(100, 48, 51));
    same(&rt, &(one, none), &(Some(BlockNumber(2048)), None));
    let next = rest.as_slice().first().copied();
    same(
        &rt,
        &(next, dead.is_empty()),
        &(Some(BlockNumber(2049)), true),
    );
    mem::forget(dead);
}

/// A stock of a batch's blocks.
fn stock_of(rt: &(impl Abort + AllocGlobal), batch: &Batch) -> Stock {
    let mut stock = Stock::new(rt.alloc());
    stock.put(batch).expect(rt, "no memory");
    stock
}

#[test]
fn stock_of_a_batch(rt: HostRuntime) {
    let mut range = small_range(&rt, 0);
    range.put_in_use();
    let batch = range.take(2).expect(&rt, "refused");
    let mut stock = stock_of(&rt, &batch);
    same(&rt, &stock.len(), &2);
    let taken = (stock.take().is_some(), stock.take().is_some());
    same(&rt, &taken, &(true, true));
    same(&rt, &(stock.is_empty(), stock.take()), &(true, None));
    mem::forget(stock);
}

//! Holes of files, found and filled.

ghost use Rattle.std.specs.Prelude.{◌≡◌, ◌+◌, ◌<◌, ◌≤◌, ◌∷◌, [], true, take, length, OnOk, OnErr};
ghost use Rattle.std.specs.FinSet.{contains, len};
ghost use Rattle.nfs_model.specs.Server.{most_bytes};
ghost use Rattle.nfs_model.specs.volume.Ranges.{without_numbers};
ghost use Rattle.filer_state.specs.state.Sets.{logical_before};
ghost use Rattle.filer_state.specs.bytes.Extending.{holes};
ghost use Rattle.service_data.specs.Stripes.{HasStripes};
ghost use Rattle.service_data.specs.Places.{StripesChanged};
ghost use Rattle.service_data.specs.Holes.{
  with_hole,
  stock_held,
  AreHoles,
  Rise,
  TakesNumbers,
  zeroed,
};

use crate::homes::{empty_block, fill_block, is_filled, number_block};
use filer_state::Files;
use nfs_values::{BLOCK_BYTES, BlockNumber, Fileid};
use parcels::LogicalHeld;
use std::alloc::AllocError;

/// More blocks than this no WRITE meets: it has at most 65,536 bytes.
pub(crate) const BLOCK_LIMIT: usize = 17;

/// Finds the holes of a file that n bytes at an offset meet, in their order, and tells how many
/// they are.
pub(crate) fn find_holes(
    held: &LogicalHeld<Files>,
    fileid: Fileid,
    offset: u64,
    n: usize,
    found: &mut [u64; 17],
) -> usize
    requires stripes { HasStripes held.now }
    requires some { 0 < n }
    requires few { n ≤ most_bytes }
    requires below { offset + n < 18446744073709551616 }
    ensures few { result ≤ 17 }
    ensures holes { take result found.new
        ≡ holes (logical_before held.now).stripes fileid.0 offset n }
{
    let first = offset / BLOCK_BYTES;
    let last = (offset + (n as u64 - 1)) / BLOCK_BYTES;
    let mut count = 0;
    for block in first..last + 1 {
        let filled = is_filled(held, fileid, block);
        count = note_hole(found, count, block, filled);
    }
    count
}

/// Notes a block after those that were found, if it is a hole, and tells how many they are.
fn note_hole(found: &mut [u64; 17], count: usize, block: u64, filled: bool) -> usize
    requires { count < 17 }
    ensures few { result ≤ count + 1 }
    ensures found { take result found.new ≡ with_hole filled block (take count found.old) }
{
    if filled {
        return count;
    }
    found[count] = block;
    count + 1
}

/// Fills holes of a file with zeros, all under the number 0. Where memory runs out all are holes
/// again.
pub(crate) fn fill_holes(
    held: &mut LogicalHeld<Files>,
    fileid: Fileid,
    holes: &[u64],
) -> Result<(), AllocError>
    requires stripes { HasStripes held.old }
    requires rise { Rise 0 holes.now }
    requires holes { AreHoles fileid.0 (logical_before held.old).stripes holes.now }
    ensures ok { OnOk result (StripesChanged (zeroed fileid.0 holes.now) held.old held.new) }
    ensures err { OnErr result (held.new ≡ held.old) }
    ensures some { OnErr result (0 < length holes.now) }
{
    let Some((block, rest)) = holes.split_first() else {
        return Ok(());
    };
    match fill_block(held, fileid, *block) {
        Ok(()) => {}
        Err(error) => return Err(error),
    }
    match fill_holes(held, fileid, rest) {
        Ok(()) => Ok(()),
        Err(error) => {
            empty_block(held, fileid, *block);
            Err(error)
        }
    }
}

/// Puts filled blocks of a file under numbers of the stock. It takes no memory.
pub(crate) fn number_holes(held: &mut LogicalHeld<Files>, fileid: Fileid, blocks: &[u64])
    requires stripes { HasStripes held.old }
    requires enough { length blocks.now ≤ len held.old.own.stock }
    ensures { TakesNumbers fileid.0 blocks.now held.old held.new }
{
    let Some((block, rest)) = blocks.split_first() else {
        return;
    };
    let number = take_number(held);
    number_block(held, fileid, *block, number);
    number_holes(held, fileid, rest);
}

/// Takes a number from the stock, which has one.
fn take_number(held: &mut LogicalHeld<Files>) -> BlockNumber
    requires { 0 < len held.old.own.stock }
    ensures there { contains held.old.own.stock result.0 ≡ true }
    ensures own { held.new.own
        ≡ stock_held (without_numbers (result.0 ∷ []) held.old.own.stock) held.old.own }
    ensures stripes { held.new.stripes ≡ held.old.stripes }
{
    match held.own.get_mut().stock.take() {
        Some(number) => number,
        None => unreachable!(),
    }
}

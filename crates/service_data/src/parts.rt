//! Block numbers of the parts of a volume: its stock, its ranges, its dead blocks.

ghost use Rattle.std.specs.Prelude.{◌≡◌, ◌<◌, ◌≤◌, ◌∷◌, [], length, true, IfNone, IfSome};
ghost use Rattle.std.specs.FinSet as sets;
ghost use Rattle.std.specs.FinSet.{contains};
ghost use Rattle.parcels.specs.Filled.{vbn_alike, volume_alike};
ghost use Rattle.nfs_model.specs.volume.Ranges.{taken};
ghost use Rattle.filer_state.specs.state.Sets.{range_value, vbn_set, volume_before, volume_after};
ghost use Rattle.filer_state.specs.bytes.WritingUp.{for_holes};
ghost use Rattle.service_data.specs.Parts.{
  range_changed,
  LeavesFree,
  LeavesOne,
  NoneFree,
  TakesParts,
};
ghost use Rattle.service_data.specs.Stripes.{HasStripes};

use crate::homes::number_block;
use filer_state::{Files, give_back};
use nfs_values::{BlockNumber, Fileid};
use parcels::{RangeHeld, VbnHeld, VolumeHeld};
use vbn_ranges::Range;

/// Puts filled blocks of a file under numbers of the parts of its volume. It takes no memory.
pub(crate) fn number_blocks(held: &mut VolumeHeld<Files>, fileid: Fileid, blocks: &[u64])
    requires stripes { HasStripes held.old.logical }
    requires enough { length blocks.now ≤ for_holes (volume_before held.old) }
    ensures { TakesParts fileid.0 blocks.now held.old held.new }
{
    let Some((block, rest)) = blocks.split_first() else {
        return;
    };
    let number = take_number(held);
    number_block(&mut held.logical, fileid, *block, number);
    number_blocks(held, fileid, rest);
}

/// Takes a number of a volume that has one: of its stock, else the lowest free one of the first
/// range that has one, else the lowest dead one. It takes no memory, and where the number was dead
/// gives back that of a block or more which cuts left for later.
pub(crate) fn take_number(held: &mut VolumeHeld<Files>) -> BlockNumber
    requires { 0 < for_holes (volume_before held.old) }
    ensures leaves { LeavesOne result.0 (volume_before held.old) (volume_after held.old held.new) }
    ensures stripes { held.new.logical.stripes ≡ held.old.logical.stripes }
    ensures count { held.new.logical.own.stripes ≡ held.old.logical.own.stripes }
    ensures alike { volume_alike held.old held.new }
{
    if let Some(number) = held.logical.own.get_mut().stock.take() {
        return number;
    }
    if let Some(number) = take_free(&mut held.vbn) {
        return number;
    }
    match held.logical.own.get_mut().dead.take() {
        Some(number) => {
            give_back(&mut held.logical, 1);
            number
        }
        None => unreachable!(),
    }
}

/// Takes the lowest free number of the first range that has one, if there is one.
pub(crate) fn take_free(held: &mut VbnHeld<Files>) -> Option<BlockNumber>
    ensures leaves { IfSome result
        (λ number. LeavesFree number.0 (vbn_set held.old) (vbn_set held.new)) }
    ensures alike { vbn_alike held.old held.new }
    ensures none { IfNone result (NoneFree (vbn_set held.old)) }
    ensures kept { IfNone result (held.new ≡ held.old) }
{
    for range in 0..16 {
        if let Some(number) = take_in(&mut held.ranges.at[range]) {
            return Some(number);
        }
    }
    None
}

/// Takes the lowest free number of the range in a place, if there is one.
fn take_in(place: &mut Option<RangeHeld<Files>>) -> Option<BlockNumber>
    ensures there { IfSome result
        (λ number. contains (range_value place.old).free number.0 ≡ true) }
    ensures left { IfSome result
        (λ number. place.new ≡ range_changed (taken (number.0 ∷ [])) place.old) }
    ensures filled { IfSome result
        (λ number. range_value place.new ≡ taken (number.0 ∷ []) (range_value place.old)) }
    ensures none { IfNone result ((range_value place.old).free ≡ sets.empty) }
    ensures kept { IfNone result (place.new ≡ place.old) }
{
    match place {
        Some(range) => take_lowest(range.own.get_mut()),
        None => None,
    }
}

/// Takes the lowest free number of a range, if there is one.
fn take_lowest(range: &mut Range) -> Option<BlockNumber>
    ensures there { IfSome result (λ number. contains range.old.free number.0 ≡ true) }
    ensures left { IfSome result (λ number. range.new ≡ taken (number.0 ∷ []) range.old) }
    ensures none { IfNone result (range.old.free ≡ sets.empty) }
    ensures kept { IfNone result (range.new ≡ range.old) }
{
    if range.free_count() == 0 {
        return None;
    }
    let _number = range.number();
    let batch = match range.take(1) {
        Ok(batch) => batch,
        Err(_) => return None,
    };
    batch.as_slice().first().copied()
}

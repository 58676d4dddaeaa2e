//! The parcels of a layout as a run begins.

ghost use Rattle.std.specs.Prelude.{◌≡◌, ◌<◌, [], IfOk, slice_get, slice_index_or};
ghost use Rattle.affinity.specs.Affinity.{affinity_of};
ghost use Rattle.affinity.specs.Largest.{begun_of, inodes_of, largest_of};
ghost use Rattle.affinity.specs.Largest.{remembered_of, root_of, steps_of};
ghost use Rattle.affinity.specs.Layout.{layout_of};
ghost use Rattle.affinity.specs.Numbers.{parents};
ghost use Rattle.affinity.specs.Tree.{IsNode};
ghost use Rattle.nfs_model.specs.Tree as trees;
ghost use Rattle.nfs_model.specs.Tree.{range_blocks_of, stripes_of};
ghost use Rattle.nfs_model.specs.Parts.{most_ranges};
ghost use Rattle.nfs_model.specs.Server.{opening};
ghost use Rattle.nfs_model.specs.volume.Ranges.{IsRangeSize};
ghost use Rattle.parcels.specs.Exact.{kind_in, HasExactly};
ghost use Rattle.parcels.specs.Sets.{serial_parcels};
ghost use Rattle.filer_state.specs.state.Opening.{
  opening_logical,
  opening_stripe,
  opening_range,
  ranges_in,
  opening_parcel,
  AreOpening,
};
ghost use Rattle.filer_state.specs.state.Sound.{IsFiler};
ghost use Rattle.filer_state.specs.state.Tree.{tree};

use crate::directory_map::DirectoryMap;
use crate::files::Files;
use crate::logical::{Logical, LogicalParcel};
use crate::range::RangeParcel;
use crate::stripe::StripeParcel;
use crate::text_map::TextMap;
use affinity::{Affinity, Layout};
use directories::Directory;
use inodes::Inodes;
use memos::Memos;
use nfs_values::{Fileid, Verifier};
use parcels::{Node, Parcel, SerialHeld, SerialNode, VecShelf};
use std::alloc::{AllocError, Global};
use stripe_cards::CardKind;
use stripes::Stripe;
use vbn_ranges::{DeadBlocks, Range, Stock};

/// The parcels of all nodes of a layout as a run begins, with the write verifier of the run
/// (writeverf3, RFC 1813 section 3.3.7): each volume has its root directory alone, and the blocks
/// of its ranges in use are free.
pub fn opening_parcels(
    alloc: Global,
    layout: &Layout,
    verifier: Verifier,
) -> Result<SerialHeld<Files>, AllocError>
    ensures exact { let L = layout_of layout.now in IfOk result (λ held.
        HasExactly kind_in L trees.Serial (serial_parcels L trees.Serial held)) }
    ensures opening { let L = layout_of layout.now in IfOk result (λ held.
        AreOpening L verifier.0 (serial_parcels L trees.Serial held)) }
    ensures sound { let L = layout_of layout.now in IfOk result (λ held.
        IsFiler (parents L) (serial_parcels L trees.Serial held) [] 0) }
    ensures server { let L = layout_of layout.now in IfOk result (λ held.
        tree L (serial_parcels L trees.Serial held) ≡ opening L verifier.0) }
{
    let mut shelf = VecShelf::new(alloc, layout.node_count() + 1)?;
    for number in 1..layout.node_count() + 1 {
        let parcel = opening_parcel(alloc, layout, verifier, layout.affinity_at(number))?;
        shelf.parcels[number] = Some(parcel);
    }
    Ok(<SerialNode as Node<Parcel<Files>>>::gather(&mut shelf, layout, Affinity::Serial))
}

/// The parcel of a node.
fn opening_parcel(
    alloc: Global,
    layout: &Layout,
    verifier: Verifier,
    affinity: Affinity,
) -> Result<Parcel<Files>, AllocError>
    requires node { IsNode (layout_of layout.now) (affinity_of affinity) }
    ensures { IfOk result (λ parcel.
        parcel ≡ opening_parcel (layout_of layout.now) verifier.0 (affinity_of affinity)) }
{
    let parcel = match affinity {
        Affinity::Serial => Parcel::Serial(()),
        Affinity::Aggregate(aggregate) => Parcel::Aggregate(spare_of(layout, aggregate)),
        Affinity::Volume(_) => Parcel::Volume(()),
        Affinity::VolumeLogical(volume) => {
            Parcel::Logical(opening_logical(alloc, layout, verifier, volume)?)
        }
        Affinity::Stripe { volume, stripe: _ } => {
            let (stripes, largest) = (layout.stripes_of(volume), layout.largest_of(volume));
            Parcel::Stripe(opening_stripe(alloc, verifier, stripes, largest)?)
        }
        Affinity::VolumeVbn(_) => Parcel::Vbn(()),
        Affinity::Range { volume, range } => {
            let size = layout.range_blocks_of(volume);
            Parcel::Range(opening_range(alloc, size, ranges_of(layout, volume), range)?)
        }
    };
    Ok(parcel)
}

/// The spare ranges of an aggregate; none of an aggregate that isn't there.
fn spare_of(layout: &Layout, aggregate: u32) -> u32
    ensures { result ≡ slice_index_or (layout_of layout.now).spare aggregate 0 }
{
    match layout.aggregate(aggregate) {
        Some(specification) => specification.spare,
        None => 0,
    }
}

/// The ranges of a volume that are in use; none of a volume that isn't there.
fn ranges_of(layout: &Layout, volume: u32) -> u32
    ensures { result ≡ ranges_in (slice_get (layout_of layout.now).volumes volume) }
{
    match layout.volume(volume) {
        Some(specification) => specification.volume.ranges,
        None => 0,
    }
}

/// What a volume has but for its stripes and ranges: its root directory, without entries, as old as
/// the volume.
fn opening_logical(
    alloc: Global,
    layout: &Layout,
    verifier: Verifier,
    volume: u32,
) -> Result<LogicalParcel, AllocError>
    ensures { let L = layout_of layout.now in IfOk result (λ parcel. parcel ≡
        opening_logical verifier.0 (stripes_of L volume) (largest_of L volume)
        (inodes_of L volume) (steps_of L volume) (root_of L volume) (begun_of L volume)
        (range_blocks_of L volume) (remembered_of L volume)) }
{
    let mut directories = DirectoryMap::new(alloc);
    directories.insert(Fileid::ROOT, Directory::new(alloc))?;
    let logical = Logical {
        verifier,
        stripes: layout.stripes_of(volume),
        largest: layout.largest_of(volume),
        most_inodes: layout.inodes_of(volume),
        most_steps: layout.steps_of(volume),
        inodes: Inodes::new(alloc, layout.root_of(volume), layout.begun_of(volume))?,
        directories,
        texts: TextMap::new(alloc),
        stock: Stock::new(alloc),
        dead: DeadBlocks::new(alloc, layout.range_blocks_of(volume))?,
        memos: Memos::new(alloc, layout.remembered_of(volume))?,
    };
    LogicalParcel::new(alloc, logical)
}

/// A stripe of a volume, with the card of its root.
fn opening_stripe(
    alloc: Global,
    verifier: Verifier,
    stripes: u32,
    largest: u64,
) -> Result<StripeParcel, AllocError>
    ensures { IfOk result (λ parcel. parcel ≡ opening_stripe verifier.0 stripes largest) }
{
    let mut stripe = Stripe::new(alloc, verifier, stripes, largest);
    stripe.set_card(Fileid::ROOT, CardKind::Directory)?;
    StripeParcel::new(alloc, stripe)
}

/// A range of a volume, where a range has this many blocks and this many are in use: with its
/// blocks free, if it is one of them.
fn opening_range(
    alloc: Global,
    range_blocks: u32,
    used: u32,
    number: u32,
) -> Result<RangeParcel, AllocError>
    requires size { IsRangeSize range_blocks }
    requires number { number < most_ranges }
    ensures { IfOk result (λ parcel. parcel ≡ opening_range range_blocks used number) }
{
    let mut range = Range::new(alloc, range_blocks, number)?;
    if number < used {
        range.put_in_use();
    }
    RangeParcel::new(alloc, range)
}

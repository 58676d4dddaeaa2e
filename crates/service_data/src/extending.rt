//! Files extended, and their holes filled.

ghost use Rattle.std.specs.Prelude.{
  ◌≡◌,
  ◌+◌,
  ◌<◌,
  ◌≤◌,
  false,
  length,
  IfOk,
  OnErr,
  OnOk,
};
ghost use Rattle.nfs_model.specs.Server.{most_bytes};
ghost use Rattle.nfs_model.specs.Home.{span_bytes};
ghost use Rattle.nfs_values.specs.Moment.{moment_of};
ghost use Rattle.inodes.specs.Inode.{kind_value};
ghost use Rattle.parcels.specs.Filled.{logical_alike, volume_alike};
ghost use Rattle.nfs_model.specs.volume.Inodes.{filled_blocks};
ghost use Rattle.filer_state.specs.state.Sets.{
  logical_before,
  logical_after,
  volume_before,
  volume_after,
};
ghost use Rattle.filer_state.specs.bytes.Extending.{holes, spans_written, kind_extended};
ghost use Rattle.filer_state.specs.bytes.WritingUp.{for_holes};
ghost use Rattle.service_data.specs.Stripes.{HasStripes};
ghost use Rattle.service_data.specs.Places.{StripesChanged};
ghost use Rattle.service_data.specs.Holes.{Extends, HasRoom, inode_extended_in};
ghost use Rattle.service_data.specs.WritingInVolume.{ExtendsFromParts, ExtendsInVolume};
ghost use Rattle.service_data.specs.declared.extension.Extension.TheVariants.{Short};

use crate::counting::{lacks_numbers, lacks_space};
use crate::extension::Extension;
use crate::holes::{fill_holes, find_holes, number_holes};
use crate::homes::{grow_cards, write_span};
use crate::parts::number_blocks;
use filer_state::Files;
use inodes::{Inode, InodeKind};
use nfs_values::{Fileid, Moment, SPAN_BYTES};
use parcels::{LogicalHeld, VolumeHeld};
use std::alloc::AllocError;

/// Writes bytes to a file at an offset, at a moment: it reaches at least to their end, and the
/// holes that they meet are filled from the stock. It tells whether it did; where the stock has too
/// few blocks nothing changes. Memory is taken only for holes, and where it runs out nothing
/// changes.
pub(crate) fn extend(
    held: &mut LogicalHeld<Files>,
    fileid: Fileid,
    offset: u64,
    written: &[u8],
    moment: Moment,
) -> Result<bool, AllocError>
    requires stripes { HasStripes held.old }
    requires room { HasRoom fileid.0 held.old.own.inodes }
    requires some { 0 < length written.now }
    requires few { length written.now ≤ most_bytes }
    requires below { offset + length written.now < 18446744073709551616 }
    ensures extended { Extends fileid.0 offset written.now (moment_of moment)
        (logical_before held.old) result (logical_after held.old held.new) }
    ensures short { IfOk result (λ done. done ≡ false → held.new ≡ held.old) }
    ensures starved { OnErr result (held.new ≡ held.old) }
    ensures alike { logical_alike held.old held.new }
    ensures stripes { HasStripes held.new }
{
    let mut found = [0; 17];
    let count = find_holes(held, fileid, offset, written.len(), &mut found);
    if count > held.own.get().stock.len() {
        return Ok(false);
    }
    let holes = &found[..count];
    match fill_holes(held, fileid, holes) {
        Ok(()) => {}
        Err(error) => return Err(error),
    }
    number_holes(held, fileid, holes);
    let end = offset + written.len() as u64;
    extend_inode(held, fileid, end, count as u32);
    grow_cards(held, fileid, end);
    write_spans(held, fileid, offset, written, moment);
    Ok(true)
}

/// Writes bytes to a file at an offset, at a moment, likewise, its holes filled from the stock,
/// else from the ranges, else from the dead. There is no space where files and holes would be more
/// than all blocks of the volume.
pub(crate) fn extend_in_volume(
    held: &mut VolumeHeld<Files>,
    fileid: Fileid,
    offset: u64,
    written: &[u8],
    moment: Moment,
) -> Result<Extension, AllocError>
    requires stripes { HasStripes held.old.logical }
    requires room { HasRoom fileid.0 held.old.logical.own.inodes }
    requires some { 0 < length written.now }
    requires few { length written.now ≤ most_bytes }
    requires below { offset + length written.now < 18446744073709551616 }
    ensures extended { ExtendsInVolume fileid.0 offset written.now (moment_of moment)
        (volume_before held.old) result (volume_after held.old held.new) }
    ensures short { IfOk result (λ done. done ≡ Short → held.new ≡ held.old) }
    ensures starved { OnErr result (held.new ≡ held.old) }
    ensures alike { volume_alike held.old held.new }
    ensures stripes { HasStripes held.new.logical }
{
    let mut found = [0; 17];
    let count = find_holes(&held.logical, fileid, offset, written.len(), &mut found);
    if lacks_space(held, count) {
        return Ok(Extension::NoSpace);
    }
    if lacks_numbers(held, count) {
        return Ok(Extension::Short);
    }
    match fill_and_write(held, fileid, offset, written, moment, &found[..count]) {
        Ok(()) => Ok(Extension::Written),
        Err(error) => Err(error),
    }
}

/// Writes bytes to a file at an offset, at a moment, where the holes that they meet were found, and
/// there are blocks for them.
fn fill_and_write(
    held: &mut VolumeHeld<Files>,
    fileid: Fileid,
    offset: u64,
    written: &[u8],
    moment: Moment,
    found: &[u64],
) -> Result<(), AllocError>
    requires stripes { HasStripes held.old.logical }
    requires room { HasRoom fileid.0 held.old.logical.own.inodes }
    requires some { 0 < length written.now }
    requires few { length written.now ≤ most_bytes }
    requires below { offset + length written.now < 18446744073709551616 }
    requires all { found.now
        ≡ holes (logical_before held.old.logical).stripes fileid.0 offset (length written.now) }
    requires most { length found.now ≤ 17 }
    requires enough { length found.now ≤ for_holes (volume_before held.old) }
    ensures extended { OnOk result (ExtendsFromParts fileid.0 offset written.now (moment_of moment)
        (volume_before held.old) (volume_after held.old held.new)) }
    ensures starved { OnErr result (held.new ≡ held.old) }
    ensures some { OnErr result (0 < length found.now) }
    ensures alike { volume_alike held.old held.new }
    ensures stripes { HasStripes held.new.logical }
{
    match fill_holes(&mut held.logical, fileid, found) {
        Ok(()) => {}
        Err(error) => return Err(error),
    }
    number_blocks(held, fileid, found);
    let end = offset + written.len() as u64;
    extend_inode(&mut held.logical, fileid, end, found.len() as u32);
    grow_cards(&mut held.logical, fileid, end);
    write_spans(&mut held.logical, fileid, offset, written, moment);
    Ok(())
}

/// Extends the inode of a file to an end, with this many more filled blocks. It takes no memory.
fn extend_inode(held: &mut LogicalHeld<Files>, fileid: Fileid, end: u64, more: u32)
    requires room { HasRoom fileid.0 held.old.own.inodes }
    requires few { more ≤ 17 }
    ensures own { held.new.own ≡ inode_extended_in fileid.0 end more held.old.own }
    ensures stripes { held.new.stripes ≡ held.old.stripes }
{
    let Some(inode) = held.own.get().inodes.get(fileid) else {
        return;
    };
    let extended = Inode {
        kind: extended_kind(inode.kind, end, more),
        ..inode
    };
    held.own.get_mut().inodes.set(fileid, extended);
}

/// A file of at least a size, with this many more filled blocks.
fn extended_kind(kind: InodeKind, end: u64, more: u32) -> InodeKind
    requires { filled_blocks (kind_value kind) + more < 4294967296 }
    ensures { kind_value result ≡ kind_extended end more (kind_value kind) }
{
    match kind {
        InodeKind::RegularFile {
            size,
            filled,
            verifier,
        } => InodeKind::RegularFile {
            size: size.max(end),
            filled: filled + more,
            verifier,
        },
        InodeKind::Directory { .. } => kind,
        InodeKind::Special { .. } => kind,
    }
}

/// Writes bytes over the blocks that are there, in one span or in two. It takes no memory.
fn write_spans(
    held: &mut LogicalHeld<Files>,
    fileid: Fileid,
    offset: u64,
    written: &[u8],
    moment: Moment,
)
    requires stripes { HasStripes held.old }
    requires some { 0 < length written.now }
    requires two { length written.now ≤ span_bytes }
    requires below { offset + length written.now < 18446744073709551616 }
    ensures { StripesChanged (spans_written fileid.0 offset written.now (moment_of moment))
        held.old held.new }
{
    let first = (SPAN_BYTES - offset % SPAN_BYTES) as usize;
    if written.len() <= first {
        write_span(held, fileid, offset, written, moment);
    } else {
        write_span(held, fileid, offset, &written[..first], moment);
        let next = offset + first as u64;
        write_span(held, fileid, next, &written[first..], moment);
    }
}

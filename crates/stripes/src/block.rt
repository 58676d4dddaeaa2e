//! A block of a file.

ghost use Rattle.std.specs.Prelude.{◌≡◌, ◌+◌, ◌*◌, ◌/◌, ◌≤◌, ◌<◌, ◌^◌, length, IfOk};
ghost use Rattle.nfs_model.specs.Server.{block_size};
ghost use Rattle.nfs_model.specs.volume.Stripes.{zero_block, block_mapped, byte_written, byte_cut};
ghost use Rattle.stripes.specs.Bytes.{bytes_mapped};
ghost use Rattle.stripes.specs.Spans.{renumbered};

use nfs_values::{BLOCK_BYTES, BlockNumber};
use std::alloc::{AllocError, Global};
use std::marker::Model;

/// The bytes of a block, as the length of an array.
const BLOCK_SIZE: usize = BLOCK_BYTES as usize;

/// A block: its number in the volume, and its bytes.
#[derive(Drop)]
pub struct Block {
    number: BlockNumber,
    bytes: Box<[u8; BLOCK_SIZE]>,
}

impl Model for Block {
    ghost use Rattle.std.specs.Prelude.{◌≡◌, length};
    ghost use Rattle.nfs_model.specs.Server.{block_size};
    ghost use Rattle.nfs_model.specs.volume.Stripes as values;
    ghost use Rattle.nfs_model.specs.volume.Codes.{coded_block};

    ghost Value = { values.Block };

    ghost coded = { coded_block };

    ghost view = { λ b. record { number = b.number.0; bytes = b.bytes.value } };

    ghost invariant = { λ b. length b.bytes.value ≡ block_size };
}

impl Block {
    /// A block of zeros.
    pub fn zero(alloc: Global, number: BlockNumber) -> Result<Block, AllocError>
        ensures { IfOk result (λ b. b ≡ zero_block number.0) }
    {
        let bytes = Box::new(alloc, [0; BLOCK_SIZE])?;
        Ok(Block { number, bytes })
    }

    pub fn number(&self) -> BlockNumber
        ensures { result.0 ≡ self.now.number }
    {
        self.number
    }

    /// Puts it under another number.
    pub fn set_number(&mut self, number: BlockNumber)
        ensures { self.new ≡ renumbered number.0 self.old }
    {
        self.number = number;
    }

    /// Its bytes.
    pub fn bytes(&self) -> &[u8]
        ensures bytes { result.now ≡ self.now.bytes }
        ensures long { length self.now.bytes ≡ block_size }
    {
        &self.bytes[..]
    }

    /// Writes what of the bytes at an offset of a file falls into this block of the file.
    pub fn write(&mut self, block: u64, offset: u64, written: &[u8])
        requires fits { block_size * block < 2 ^ 64 }
        requires met { block_size * block < offset + length written.now }
        requires reached { offset < block_size * block + block_size }
        ensures { self.new ≡ block_mapped (byte_written offset written.now) block self.old }
    {
        write_part(&mut self.bytes[..], BLOCK_BYTES * block, offset, written);
    }

    /// Zeroes its bytes from a size of the file on, which lies in this block of the file.
    pub fn cut(&mut self, size: u64)
        ensures { self.new ≡ block_mapped (byte_cut size) (size / block_size) self.old }
    {
        cut_part(
            &mut self.bytes[..],
            BLOCK_BYTES * (size / BLOCK_BYTES),
            size,
        );
    }
}

/// Writes into a part of a file, which begins at `start`, what of the bytes at an offset falls
/// into it.
fn write_part(part: &mut [u8], start: u64, offset: u64, written: &[u8])
    requires met { start < offset + length written.now }
    requires reached { offset < start + length part.old }
    ensures { part.new ≡ bytes_mapped (byte_written offset written.now) start part.old }
{
    let at = offset.saturating_sub(start) as usize;
    let skipped = start.saturating_sub(offset) as usize;
    let n = (part.len() - at).min(written.len() - skipped);
    part[at..at + n].copy_from_slice(&written[skipped..skipped + n]);
}

/// Zeroes a part of a file, which begins at `start`, from a size on that lies in it.
fn cut_part(part: &mut [u8], start: u64, size: u64)
    requires within { start ≤ size }
    requires reached { size < start + length part.old }
    ensures { part.new ≡ bytes_mapped (byte_cut size) start part.old }
{
    part[(size - start) as usize..].fill(0);
}

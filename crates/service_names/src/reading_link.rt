//! READLINK.

ghost use Rattle.std.specs.Prelude.{◌≡◌, [], IfOk, OnErr};
ghost use Rattle.std.specs.FinMap.{get};
ghost use Rattle.filer_state.specs.state.Tree.{text_or_empty};
ghost use Rattle.inodes.specs.Inode.{kind_value};
ghost use Rattle.filer_state.specs.state.Lenses.{logical_lens};
ghost use Rattle.filer_state.specs.state.Promises.{HasVolume};
ghost use Rattle.filer_state.specs.state.Sets.{logical_before};
ghost use Rattle.filer_state.specs.changes.NameAnswers.{readlink_answer};
ghost use Rattle.nfs_values.specs.Answer.{answer_of};
ghost use Rattle.nfs_values.specs.declared.answer.Answer.TheVariants as answers;
ghost use Rattle.service_names.specs.Promises.{ReadsLink};
ghost use Rattle.service_names.specs.Linking.{is_symbolic, TellsText};

use crate::showing::shown;
use filer_state::Files;
use filer_state::names::name_calls_are_right;
use inodes::InodeKind;
use nfs_values::answer::ReadLinkResults;
use nfs_values::{Fileid, Name, SpecialType, Status, VolumeNumber};
use parcels::LogicalHeld;
use std::alloc::{AllocError, Global};

/// READLINK (RFC 1813 section 3.3.5), on the parcels of a volume's names and attributes: the
/// attributes and the text of a symbolic link, INVAL for what is none, or STALE. Memory runs out
/// only where it would tell the text.
pub fn read_link(
    alloc: Global,
    held: &LogicalHeld<Files>,
    volume: VolumeNumber,
    fileid: Fileid,
) -> Result<Result<ReadLinkResults, Status>, AllocError>
    requires whole { HasVolume volume.0 logical_lens [] (logical_before held.now) }
    ensures right { ReadsLink volume.0 fileid.0 (logical_before held.now) result }
{
    name_calls_are_right();
    text_told(alloc, held, volume, fileid)
}

/// What READLINK comes to.
fn text_told(
    alloc: Global,
    held: &LogicalHeld<Files>,
    volume: VolumeNumber,
    fileid: Fileid,
) -> Result<Result<ReadLinkResults, Status>, AllocError>
    ensures told { IfOk result (λ told. answer_of (answers.ReadLink told)
        ≡ readlink_answer volume.0 fileid.0 (logical_before held.now)) }
    ensures would { OnErr result (TellsText
        (readlink_answer volume.0 fileid.0 (logical_before held.now))) }
{
    let own = held.own.get();
    let inode = match own.inodes.get(fileid) {
        Some(inode) => inode,
        None => return Ok(Err(Status::Stale)),
    };
    if !is_symbolic_link(inode.kind) {
        return Ok(Err(Status::Invalid));
    }
    let text = Name::copied(alloc, text_of(held, fileid))?;
    let object = shown(volume, fileid, inode, None);
    Ok(Ok(ReadLinkResults { object, text }))
}

/// The text of the symbolic link of a fileid.
fn text_of(held: &LogicalHeld<Files>, fileid: Fileid) -> &[u8]
    ensures { result.now ≡ text_or_empty (get held.now.own.texts fileid.0) }
{
    match held.own.get().texts.get(fileid) {
        Some(text) => text,
        None => b"",
    }
}

/// Whether a node of a kind is a symbolic link.
fn is_symbolic_link(kind: InodeKind) -> bool
    ensures { result ≡ is_symbolic (kind_value kind) }
{
    match kind {
        InodeKind::Special { special, .. } => matches!(special, SpecialType::SymbolicLink),
        _ => false,
    }
}

//! CREATE, MKDIR, SYMLINK and MKNOD of a name that isn't there.

ghost use Rattle.std.specs.Prelude.{◌≡◌, ◌==◌, false, None, IfOk, OnOk, OnErr};
ghost use Rattle.std.specs.List.{list_any};
ghost use Rattle.std.specs.Option.{option_map};
ghost use Rattle.nfs_values.specs.Answer.{answer_of};
ghost use Rattle.nfs_values.specs.declared.answer.Answer.TheVariants.{
  Create,
  MakeDevice,
  MakeDirectory,
  MakeSymbolicLink,
};
ghost use Rattle.nfs_model.specs.Types as types;
ghost use Rattle.nfs_model.specs.Serial.Symlink.{text_fault};
ghost use Rattle.nfs_values.specs.Attributes.{kind_of};
ghost use Rattle.nfs_values.specs.Special.{special_of};
ghost use Rattle.nfs_values.specs.Caller.{caller_of};
ghost use Rattle.nfs_values.specs.Set.{mode_of, set_of};
ghost use Rattle.nfs_values.specs.Status.{status_of};
ghost use Rattle.parcels.specs.Filled.{logical_alike};
ghost use Rattle.filer_state.specs.state.Sets.{logical_before, logical_after};
ghost use Rattle.filer_state.specs.changes.Making.{
  create_by,
  create_check,
  is_full_set,
  mkdir_by,
  mkdir_check,
  mknod_by,
  mknod_of,
  symlink_by,
};
ghost use Rattle.filer_state.specs.changes.Named.{HeldNaming};
ghost use Rattle.service_names.specs.Making.{MayMake, naming_in_parent, node_by, Makes};

use crate::attributes::{has_bad_time, is_past};
use crate::making::make_told;
use crate::new_inodes::{asked_attributes, file_inode, made_directory_inode, special_inode};
use crate::parent::Parent;
use filer_state::Files;
use nfs_values::answer::MakeResults;
use nfs_values::{Caller, CreateMode, FileKind, MOST_TEXT, SetAttributes, SpecialType, Status};
use parcels::LogicalHeld;
use std::alloc::{AllocError, Global};

/// The mode of a new symbolic link where none is given (our profile).
const LINK_MODE: u16 = 0o777;

/// The mode of what MKNOD makes where none is given (our profile).
const SPECIAL_MODE: u16 = 0o644;

/// CREATE of a name that isn't there: INVAL for a bad time, FBIG past the largest size, NOSPC
/// where no inode is left; else the file is made. Where memory runs out nothing has changed.
pub(crate) fn create_new(
    alloc: Global,
    held: &mut LogicalHeld<Files>,
    parent: Parent,
    name: &[u8],
    mode: &CreateMode,
    caller: &Caller,
) -> Result<Result<MakeResults, Status>, AllocError>
    requires may { is_full_set (logical_before held.old) ≡ false
        → MayMake (naming_in_parent parent name.now (logical_before held.old)) }
    ensures told { IfOk result (λ told. answer_of (Create told)
        ≡ (create_by (naming_in_parent parent name.now (logical_before held.old)) (mode_of mode.now)
        (caller_of caller.now) None).answer) }
    ensures set { OnOk result (logical_after held.old held.new
        ≡ (create_by (naming_in_parent parent name.now (logical_before held.old)) (mode_of mode.now)
        (caller_of caller.now) None).set) }
    ensures would { OnErr result (Makes (create_by
        (naming_in_parent parent name.now (logical_before held.old)) (mode_of mode.now)
        (caller_of caller.now) None).answer) }
    ensures alike { logical_alike held.old held.new }
    ensures err { OnErr result (held.new ≡ held.old) }
{
    if let Some(fault) = create_fault(held, &asked_attributes(mode)) {
        return Ok(Err(fault));
    }
    let made = file_inode(mode, caller, &parent);
    let told = make_told(alloc, held, parent, name, made, b"")?;
    Ok(Ok(told))
}

/// MKDIR of a name that isn't there: INVAL for a bad time or a size, NOSPC where no inode is left;
/// else the directory is made. Where memory runs out nothing has changed.
pub(crate) fn make_new(
    alloc: Global,
    held: &mut LogicalHeld<Files>,
    parent: Parent,
    name: &[u8],
    set: &SetAttributes,
    caller: &Caller,
) -> Result<Result<MakeResults, Status>, AllocError>
    requires may { is_full_set (logical_before held.old) ≡ false
        → MayMake (naming_in_parent parent name.now (logical_before held.old)) }
    ensures told { IfOk result (λ told. answer_of (MakeDirectory told)
        ≡ (mkdir_by (naming_in_parent parent name.now (logical_before held.old)) (set_of set.now)
        (caller_of caller.now) None).answer) }
    ensures set { OnOk result (logical_after held.old held.new
        ≡ (mkdir_by (naming_in_parent parent name.now (logical_before held.old)) (set_of set.now)
        (caller_of caller.now) None).set) }
    ensures would { OnErr result (Makes (mkdir_by
        (naming_in_parent parent name.now (logical_before held.old)) (set_of set.now)
        (caller_of caller.now) None).answer) }
    ensures alike { logical_alike held.old held.new }
    ensures err { OnErr result (held.new ≡ held.old) }
{
    if let Some(fault) = mkdir_fault(held, set) {
        return Ok(Err(fault));
    }
    let made = made_directory_inode(set, caller, &parent);
    let told = make_told(alloc, held, parent, name, made, b"")?;
    Ok(Ok(told))
}

/// SYMLINK of a name that isn't there: what is wrong with the text, then as MKDIR. Where memory
/// runs out nothing has changed.
pub(crate) fn make_link_new(
    alloc: Global,
    held: &mut LogicalHeld<Files>,
    parent: Parent,
    name: &[u8],
    set: &SetAttributes,
    text: &[u8],
    caller: &Caller,
) -> Result<Result<MakeResults, Status>, AllocError>
    requires may { is_full_set (logical_before held.old) ≡ false
        → MayMake (naming_in_parent parent name.now (logical_before held.old)) }
    ensures told { IfOk result (λ told. answer_of (MakeSymbolicLink told)
        ≡ (symlink_by (naming_in_parent parent name.now (logical_before held.old)) (set_of set.now)
        text.now (caller_of caller.now) None).answer) }
    ensures set { OnOk result (logical_after held.old held.new
        ≡ (symlink_by (naming_in_parent parent name.now (logical_before held.old)) (set_of set.now)
        text.now (caller_of caller.now) None).set) }
    ensures would { OnErr result (Makes (symlink_by
        (naming_in_parent parent name.now (logical_before held.old)) (set_of set.now)
        text.now (caller_of caller.now) None).answer) }
    ensures alike { logical_alike held.old held.new }
    ensures err { OnErr result (held.new ≡ held.old) }
{
    if let Some(fault) = text_fault(text) {
        return Ok(Err(fault));
    }
    if let Some(fault) = mkdir_fault(held, set) {
        return Ok(Err(fault));
    }
    let special = SpecialType::SymbolicLink;
    let made = special_inode(special, LINK_MODE, set, text.len() as u32, caller, &parent);
    let told = make_told(alloc, held, parent, name, made, text)?;
    Ok(Ok(told))
}

/// MKNOD of a name that isn't there: BADTYPE for a regular file, a directory and a symbolic link;
/// else as MKDIR. Where memory runs out nothing has changed.
pub(crate) fn make_special_new(
    alloc: Global,
    held: &mut LogicalHeld<Files>,
    parent: Parent,
    name: &[u8],
    kind: FileKind,
    set: &SetAttributes,
    caller: &Caller,
) -> Result<Result<MakeResults, Status>, AllocError>
    requires may { is_full_set (logical_before held.old) ≡ false
        → MayMake (naming_in_parent parent name.now (logical_before held.old)) }
    ensures told { IfOk result (λ told. answer_of (MakeDevice told)
        ≡ (mknod_by (naming_in_parent parent name.now (logical_before held.old)) (kind_of kind)
        (set_of set.now) (caller_of caller.now) None).answer) }
    ensures set { OnOk result (logical_after held.old held.new
        ≡ (mknod_by (naming_in_parent parent name.now (logical_before held.old)) (kind_of kind)
        (set_of set.now) (caller_of caller.now) None).set) }
    ensures would { OnErr result (Makes (mknod_by
        (naming_in_parent parent name.now (logical_before held.old)) (kind_of kind)
        (set_of set.now) (caller_of caller.now) None).answer) }
    ensures alike { logical_alike held.old held.new }
    ensures err { OnErr result (held.new ≡ held.old) }
{
    let special = match special_made(kind) {
        Some(special) => special,
        None => return Ok(Err(Status::BadType)),
    };
    if let Some(fault) = mkdir_fault(held, set) {
        return Ok(Err(fault));
    }
    let made = special_inode(special, SPECIAL_MODE, set, 0, caller, &parent);
    let told = make_told(alloc, held, parent, name, made, b"")?;
    Ok(Ok(told))
}

/// What MKNOD makes of a kind, if it does (RFC 1813 section 3.3.11).
fn special_made(kind: FileKind) -> Option<SpecialType>
    ensures { (n : HeldNaming) (set : types.SetAttributes) (caller : types.Caller)
        → mknod_of n (kind_of kind) set caller
        ≡ node_by n set caller (option_map special_of result) }
{
    match kind {
        FileKind::Regular => None,
        FileKind::Directory => None,
        FileKind::Special(special) => match special {
            SpecialType::SymbolicLink => None,
            SpecialType::Fifo => Some(special),
            SpecialType::Socket => Some(special),
            SpecialType::BlockDevice(_) => Some(special),
            SpecialType::CharacterDevice(_) => Some(special),
        },
    }
}

/// What is wrong with a text: NAMETOOLONG over 1,024 bytes, NOENT where it is empty, INVAL for byte
/// 0 (our profile).
fn text_fault(text: &[u8]) -> Option<Status>
    ensures { option_map status_of result ≡ text_fault text.now }
{
    if text.len() > MOST_TEXT {
        return Some(Status::NameTooLong);
    }
    if text.is_empty() {
        return Some(Status::NoEntry);
    }
    if has_zero(text) {
        return Some(Status::Invalid);
    }
    None
}

/// Whether bytes have byte 0 among them.
fn has_zero(bytes: &[u8]) -> bool
    ensures { result ≡ list_any (λ b. b == 0) bytes.now }
{
    bytes.iter().any(|b| *b == 0)
}

/// What hinders that a file is made with attributes: INVAL for a bad time, FBIG past the largest
/// size, NOSPC where no inode is left.
fn create_fault(held: &LogicalHeld<Files>, set: &SetAttributes) -> Option<Status>
    ensures { option_map status_of result
        ≡ create_check (set_of set.now) (logical_before held.now) }
{
    if has_bad_time(set) {
        return Some(Status::Invalid);
    }
    if is_past(set.size, held.own.get().largest) {
        return Some(Status::TooBig);
    }
    if is_full(held) {
        return Some(Status::NoSpace);
    }
    None
}

/// What hinders that a directory is made with attributes: INVAL for a bad time or a size, NOSPC
/// where no inode is left.
fn mkdir_fault(held: &LogicalHeld<Files>, set: &SetAttributes) -> Option<Status>
    ensures { option_map status_of result
        ≡ mkdir_check (set_of set.now) (logical_before held.now) }
{
    if has_bad_time(set) {
        return Some(Status::Invalid);
    }
    if set.size.is_some() {
        return Some(Status::Invalid);
    }
    if is_full(held) {
        return Some(Status::NoSpace);
    }
    None
}

/// Whether no inode is left.
fn is_full(held: &LogicalHeld<Files>) -> bool
    ensures { result ≡ is_full_set (logical_before held.now) }
{
    let own = held.own.get();
    own.inodes.len() >= own.most_inodes as usize
}

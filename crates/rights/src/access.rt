//! What a mode lets a caller do (RFC 1813 section 3.3.4).

ghost use Rattle.std.specs.Prelude.{◌≡◌, ◌<◌, ◌≤◌};
ghost use Rattle.nfs_model.specs.Serial.Access as access;
ghost use Rattle.nfs_model.specs.Serial.Rights.{rights_of};
ghost use Rattle.nfs_model.specs.Types.{DirectoryKind};
ghost use Rattle.nfs_values.specs.Attributes.{kind_of};
ghost use Rattle.nfs_values.specs.Caller.{caller_of};
ghost use Rattle.nfs_values.specs.Credential.{credential_of};
ghost use Rattle.nfs_values.specs.Special.{special_of};
ghost use Rattle.rights.specs.Protection.{protection_of, rights_value};

use crate::bits::has_bit;
use crate::mode::{Rights, rights_of};
use crate::protection::Protection;
use nfs_values::{Caller, FileKind, SpecialType};

// What is asked for (RFC 1813 section 3.3.4).
const READ: u32 = 0x0001;

const LOOKUP: u32 = 0x0002;

const MODIFY: u32 = 0x0004;

const EXTEND: u32 = 0x0008;

const DELETE: u32 = 0x0010;

const EXECUTE: u32 = 0x0020;

/// A bit that is asked for and may be given.
fn bit_given(asked: u32, bit: u32, may: bool) -> u32
    requires { 0 < bit }
    ensures given { result ≡ access.bit_given asked bit may }
    ensures most { result ≤ bit }
{
    if may && has_bit(asked, bit) {
        return bit;
    }
    0
}

/// Whether w is given, to a caller that may change anything.
fn writes_given(caller: &Caller, rights: Rights) -> bool
    ensures { result ≡ access.writes_given (caller_of caller.now) (rights_value rights) }
{
    rights.writes && !caller.reads_only
}

/// Whether w of a directory is given, to which x belongs where callers are checked.
fn changes_given(caller: &Caller, rights: Rights) -> bool
    ensures { result ≡ access.changes_given (caller_of caller.now) (rights_value rights) }
{
    writes_given(caller, rights) && (rights.executes || !caller.is_checked)
}

/// Whether w of what is neither a file nor a directory is given. What is written to a FIFO, a
/// socket or a device changes nothing here, so that it is given to who may change nothing too.
fn special_writes(caller: &Caller, special: SpecialType, rights: Rights) -> bool
    ensures { result ≡ access.special_writes (caller_of caller.now) (special_of special)
        (rights_value rights) }
{
    match special {
        SpecialType::SymbolicLink => writes_given(caller, rights),
        SpecialType::Fifo => rights.writes,
        SpecialType::Socket => rights.writes,
        SpecialType::BlockDevice(_) => rights.writes,
        SpecialType::CharacterDevice(_) => rights.writes,
    }
}

/// Of the bits that are asked for, those that rights give to all but directories, where it is known
/// whether w is given.
fn bits_of_file(asked: u32, rights: Rights, writes: bool) -> u32
    ensures { result ≡ access.bits_of_file asked (rights_value rights) writes }
{
    bit_given(asked, READ, rights.reads)
        + bit_given(asked, MODIFY, writes)
        + bit_given(asked, EXTEND, writes)
        + bit_given(asked, EXECUTE, rights.executes)
}

/// Of the bits that are asked for, those that rights give to a directory.
fn bits_of_directory(caller: &Caller, asked: u32, rights: Rights) -> u32
    ensures { result ≡ access.bits_given (caller_of caller.now) asked
        DirectoryKind (rights_value rights) }
{
    let changes = changes_given(caller, rights);
    bit_given(asked, READ, rights.reads)
        + bit_given(asked, LOOKUP, rights.executes)
        + bit_given(asked, MODIFY, changes)
        + bit_given(asked, EXTEND, changes)
        + bit_given(asked, DELETE, changes)
}

/// Of the bits that a caller asks for, those that an object's mode gives (RFC 1813 section 3.3.4).
pub fn access_given(caller: &Caller, asked: u32, object: &Protection) -> u32
    ensures { result ≡ access.bits_given (caller_of caller.now) asked (kind_of object.now.kind)
        (rights_of (credential_of caller.now.credential) (protection_of object.now)) }
{
    let rights = rights_of(&caller.credential, object);
    match object.kind {
        FileKind::Regular => bits_of_file(asked, rights, writes_given(caller, rights)),
        FileKind::Directory => bits_of_directory(caller, asked, rights),
        FileKind::Special(special) => {
            bits_of_file(asked, rights, special_writes(caller, special, rights))
        }
    }
}

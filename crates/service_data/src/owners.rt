//! Who owns a file, and what is asked of a caller by it.

ghost use Rattle.std.specs.Prelude.{◌≡◌};
ghost use Rattle.std.specs.Option.{option_map};
ghost use Rattle.nfs_values.specs.Caller.{caller_of};
ghost use Rattle.nfs_values.specs.Ownership.{ownership_of};
ghost use Rattle.nfs_values.specs.Status.{status_of};
ghost use Rattle.inodes.specs.Inode.{inode_value};
ghost use Rattle.stripe_cards.specs.Cards.{card_of};
ghost use Rattle.filer_state.specs.bytes.Permitted.{
  clears_owned,
  owner_at,
  owner_on,
  read_refused,
  write_refused,
};

use inodes::{Inode, InodeKind};
use nfs_values::{Caller, Ownership, Status};
use rights::{clears_set_ids, read_refusal, refusal_of, write_refusal};
use stripe_cards::Card;

/// Who owns a file, by its card.
pub(crate) fn owner_on(card: Option<Card>) -> Option<Ownership>
    ensures { option_map ownership_of result ≡ owner_on (option_map card_of card) }
{
    match card {
        Some(Card::File { owner, .. }) => Some(owner),
        Some(Card::Directory) => None,
        None => None,
    }
}

/// Who owns a file, by its inode.
pub(crate) fn owner_of(inode: Option<Inode>) -> Option<Ownership>
    ensures { option_map ownership_of result ≡ owner_at (option_map inode_value inode) }
{
    let inode = match inode {
        Some(inode) => inode,
        None => return None,
    };
    match inode.kind {
        InodeKind::RegularFile { .. } => Some(inode.attributes.ownership()),
        InodeKind::Directory { .. } => None,
        InodeKind::Special { .. } => None,
    }
}

/// A refusal of a READ (RFC 1813 section 3.3.6), by who owns the file.
pub(crate) fn refusal_of_read(caller: &Caller, owner: Option<Ownership>) -> Option<Status>
    ensures { option_map status_of result
        ≡ read_refused (caller_of caller.now) (option_map ownership_of owner) }
{
    match owner {
        Some(owner) => read_refusal(caller, owner),
        None => refusal_of(caller, false, None),
    }
}

/// A refusal of a WRITE (RFC 1813 section 3.3.7), by who owns the file.
pub(crate) fn refusal_of_write(caller: &Caller, owner: Option<Ownership>) -> Option<Status>
    ensures { option_map status_of result
        ≡ write_refused (caller_of caller.now) (option_map ownership_of owner) }
{
    match owner {
        Some(owner) => write_refusal(caller, owner),
        None => refusal_of(caller, true, None),
    }
}

/// Whether a caller's WRITE ends that a file is run as its owner or its group.
pub(crate) fn ends_set_ids(caller: &Caller, owner: Option<Ownership>) -> bool
    ensures { result ≡ clears_owned (caller_of caller.now) (option_map ownership_of owner) }
{
    match owner {
        Some(owner) => clears_set_ids(caller, owner),
        None => false,
    }
}

//! A file's card from its making to its removal, and a directory's.

use crate::same::same;
use nfs_values::{Fileid, Moment, Ownership};
use std::mem;
use std::process::Abort;
use stripe_cards::{Card, Cards};

const FILE: Fileid = Fileid(2);

const DIRECTORY: Fileid = Fileid(3);

/// All its bytes differ, so that one in another's place is seen.
const OWNER: Ownership = Ownership {
    mode: 0o4644,
    uid: 0x1122_3344,
    gid: 0x5566_7788,
};

/// A moment of whole seconds.
const fn at(seconds: u32) -> Moment {
    Moment {
        seconds,
        nanoseconds: 0,
    }
}

/// The cards of a file of 8,195 bytes and of a directory, with touches.
fn touched(rt: &(impl Abort + AllocGlobal)) -> Cards {
    let mut cards = Cards::new(rt.alloc());
    cards.touch(FILE, at(1));
    cards.set_file(FILE, 8195, OWNER).expect(rt, "no memory");
    cards.set_directory(DIRECTORY).expect(rt, "no memory");
    cards.touch(FILE, at(9));
    cards.touch(FILE, at(5));
    cards.touch(DIRECTORY, at(9));
    cards
}

#[test]
fn touches(rt: HostRuntime) {
    let mut cards = touched(&rt);
    let taken = (cards.take_touch(FILE), cards.take_touch(FILE));
    same(&rt, &taken, &(Some(at(9)), None));
    same(&rt, &cards.get(DIRECTORY), &Some(Card::Directory));
    mem::forget(cards);
}

#[test]
fn sizes(rt: HostRuntime) {
    let mut cards = touched(&rt);
    cards.set_size(FILE, 8193);
    cards.set_size(DIRECTORY, 8193);
    let card = cards.get(FILE);
    cards.remove(FILE);
    cards.set_size(FILE, 8194);
    let wanted = Card::File {
        size: 8193,
        touch: Some(at(9)),
        owner: OWNER,
    };
    same(&rt, &(card, cards.get(FILE)), &(Some(wanted), None));
    same(&rt, &cards.get(DIRECTORY), &Some(Card::Directory));
    mem::forget(cards);
}

#[test]
fn owners(rt: HostRuntime) {
    let mut cards = touched(&rt);
    let (mode, size) = (0o644, 8195);
    let owner = Ownership { mode, ..OWNER };
    cards.set_owner(FILE, owner);
    cards.set_owner(DIRECTORY, owner);
    let touch = Some(at(9));
    let wanted = Card::File { size, touch, owner };
    same(&rt, &cards.get(FILE), &Some(wanted));
    same(&rt, &cards.get(DIRECTORY), &Some(Card::Directory));
    cards.take_touch(FILE);
    let touch = None;
    let wanted = Card::File { size, touch, owner };
    same(&rt, &cards.get(FILE), &Some(wanted));
    mem::forget(cards);
}

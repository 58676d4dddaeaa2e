//! Directories of one entry and of a thousand, names of one hash, and pages at their edges.

use crate::same::same;
use directories::{Directory, hash_of};
use nfs_values::answer::DirectoryEntry;
use nfs_values::{Cookie, Fileid, Name};
use std::mem;
use std::process::Abort;

/// The last decimal digit of a number.
fn digit(number: u64) -> u8 {
    b'0' + (number % 10) as u8
}

/// The four decimal digits of a number.
fn digits(number: u64) -> [u8; 4] {
    [
        digit(number / 1000),
        digit(number / 100),
        digit(number / 10),
        digit(number),
    ]
}

/// Adds a name where it isn't there.
fn add(rt: &(impl Abort + AllocGlobal), directory: &mut Directory, name: &[u8], fileid: u64) {
    if directory.find(name).is_some() || directory.next_cookie().0 >= 1 << 62 {
        return;
    }
    let name = Vec::from_slice(rt.alloc(), name).expect(rt, "no memory");
    let added = directory.add(Name::new(name), Fileid(fileid));
    added.expect(rt, "no memory");
}

/// Puts an entry in the place of the one with its name, and answers the fileid of that one.
fn replace(
    rt: &(impl Abort + AllocGlobal),
    directory: &mut Directory,
    name: &[u8],
    fileid: u64,
) -> Option<Fileid> {
    if directory.next_cookie().0 >= 1 << 62 {
        return None;
    }
    let name = Vec::from_slice(rt.alloc(), name).expect(rt, "no memory");
    let was = directory.replace(Name::new(name), Fileid(fileid));
    was.expect(rt, "no memory")
}

/// The name that is added at a place, of a thousand in all.
fn name_at(place: u32) -> [u8; 4] {
    digits(u64::from(place) * 373 % 1000)
}

/// How many of a thousand names lead to their fileid, and how many names are compared at most.
fn found(directory: &Directory) -> (u64, usize) {
    let mut right = 0_u64;
    let mut most = 0;
    for i in 0..1000 {
        let (fileid, compared) = directory.find_counted(&name_at(i));
        right = right.wrapping_add(u64::from(fileid == Some(Fileid(u64::from(i) + 2))));
        most = most.max(compared);
    }
    (right, most)
}

#[test]
fn thousand_names(rt: HostRuntime) {
    let mut directory = Directory::new(rt.alloc());
    for i in 0..1000 {
        add(&rt, &mut directory, &name_at(i), u64::from(i) + 2);
    }
    let (right, most) = found(&directory);
    same(&rt, &(right, most <= 10), &(1000, true));
    let most = directory.find_counted(b"0500x").1;
    same(&rt, &(most <= 10, directory.len()), &(true, 1000));
    mem::forget(directory);
}

/// How many entries a page has, the cookies of the first two or 0, and whether it is the last.
type Listed = (usize, u64, u64, bool);

/// The cookie of an entry of a page, or 0.
fn cookie_of(entries: &[DirectoryEntry], place: usize) -> u64 {
    match entries.get(place) {
        Some(entry) => entry.cookie.0,
        None => 0,
    }
}

/// Looks whether the page after a cookie has this.
fn lists(
    rt: &(impl Abort + AllocGlobal),
    directory: &Directory,
    cookie: u64,
    room: usize,
    wanted: &Listed,
) {
    let told = directory.page(rt.alloc(), Cookie(cookie), room);
    let page = told.expect(rt, "no memory");
    let cookies = (cookie_of(&page.entries, 0), cookie_of(&page.entries, 1));
    let listed = (page.entries.len(), cookies.0, cookies.1, page.is_last);
    mem::forget(page);
    same(rt, &listed, wanted);
}

/// A directory of `b` under the cookie 4 and `a` under 5, after another `a` under 3.
fn two_names(rt: &(impl Abort + AllocGlobal)) -> Directory {
    let mut directory = Directory::new(rt.alloc());
    add(rt, &mut directory, b"a", 2);
    add(rt, &mut directory, b"b", 3);
    directory.remove(b"a");
    add(rt, &mut directory, b"a", 4);
    directory
}

#[test]
fn no_names(rt: HostRuntime) {
    let mut directory = Directory::new(rt.alloc());
    lists(&rt, &directory, 0, 0, &(0, 0, 0, true));
    same(&rt, &directory.find_counted(b"a"), &(None, 0));
    let told = (directory.is_empty(), directory.remove(b"a"));
    same(&rt, &told, &(true, false));
    mem::forget(directory);
}

#[test]
fn cookies_not_given_again(rt: HostRuntime) {
    let mut directory = two_names(&rt);
    let found = (directory.find(b"a"), directory.next_cookie());
    same(&rt, &found, &(Some(Fileid(4)), Cookie(6)));
    let removed = (directory.remove(b"a"), directory.remove(b"a"));
    same(&rt, &removed, &(true, false));
    mem::forget(directory);
}

#[test]
fn names_replaced(rt: HostRuntime) {
    let mut directory = two_names(&rt);
    let was = replace(&rt, &mut directory, b"b", 7);
    let found = (was, directory.find(b"b"), directory.next_cookie());
    same(&rt, &found, &(Some(Fileid(3)), Some(Fileid(7)), Cookie(7)));
    lists(&rt, &directory, 0, 56, &(2, 5, 6, true));
    let was = replace(&rt, &mut directory, b"c", 8);
    let found = (was, directory.find(b"c"), directory.next_cookie());
    same(&rt, &found, &(None, Some(Fileid(8)), Cookie(8)));
    lists(&rt, &directory, 5, 56, &(2, 6, 7, true));
    mem::forget(directory);
}

#[test]
fn names_of_one_hash(rt: HostRuntime) {
    let mut directory = Directory::new(rt.alloc());
    add(&rt, &mut directory, b"txkfjud", 2);
    same(&rt, &directory.find(b"hvoryrb"), &None);
    add(&rt, &mut directory, b"hvoryrb", 3);
    let found = (directory.find(b"hvoryrb"), directory.find(b"txkfjud"));
    same(&rt, &found, &(Some(Fileid(3)), Some(Fileid(2))));
    same(&rt, &directory.remove(b"txkfjud"), &true);
    let found = (directory.find(b"hvoryrb"), directory.find(b"txkfjud"));
    same(&rt, &found, &(Some(Fileid(3)), None));
    mem::forget(directory);
}

/// The fileid that a name has in the end, by its number: of each three one is removed, and one is
/// replaced.
fn left(number: u64) -> Option<Fileid> {
    match number % 3 {
        0 => None,
        1 => Some(Fileid(number.saturating_add(10_000))),
        _ => Some(Fileid(number)),
    }
}

/// How many of three thousand names lead to what is left of them, and how many names are compared
/// at most.
fn found_left(directory: &Directory) -> (u64, usize) {
    let mut right = 0_u64;
    let mut most = 0;
    for number in 0..3000 {
        let (fileid, compared) = directory.find_counted(&digits(number));
        right = right.wrapping_add(u64::from(fileid == left(number)));
        most = most.max(compared);
    }
    (right, most)
}

#[test]
fn guessed_names(rt: HostRuntime) {
    let mut directory = Directory::new(rt.alloc());
    for number in 0..3000 {
        add(&rt, &mut directory, &digits(number), number);
    }
    for number in 0..1000 {
        directory.remove(&digits(3 * number));
        replace(
            &rt,
            &mut directory,
            &digits(3 * number + 1),
            3 * number + 10_001,
        );
    }
    let (right, most) = found_left(&directory);
    same(
        &rt,
        &(right, most <= 11, directory.len()),
        &(3000, true, 2000),
    );
    for number in 3000..4000 {
        add(&rt, &mut directory, &digits(number), number);
    }
    let (right, most) = found_left(&directory);
    same(
        &rt,
        &(right, most <= 12, directory.len()),
        &(3000, true, 3000),
    );
    mem::forget(directory);
}

/// The fileid of the entry that a name is guessed to have, if one is.
fn guessed(directory: &Directory, name: &[u8]) -> Option<Fileid> {
    let slot = directory.slot_guessed(hash_of(name))?;
    Some(directory.fileid_guessed(slot))
}

/// Of how many of three thousand names the entry is guessed, and for how many there is something
/// to read: the first word of a line of guesses, or how many entries a small directory has.
fn read_ahead(directory: &Directory) -> (u64, u64) {
    let mut right = 0_u64;
    let mut words = 0_u64;
    for number in 0..3000 {
        let name = digits(number);
        right = right.wrapping_add(u64::from(guessed(directory, &name) == Some(Fileid(number))));
        words = words.wrapping_add(u64::from(directory.read_guesses(hash_of(&name)) > 0));
    }
    (right, words)
}

#[test]
fn names_read_in_advance(rt: HostRuntime) {
    let mut directory = Directory::new(rt.alloc());
    same(&rt, &read_ahead(&directory), &(0, 0));
    for number in 0..500 {
        add(&rt, &mut directory, &digits(number), number);
    }
    let (right, sizes) = read_ahead(&directory);
    let is_small = directory.is_small();
    same(&rt, &(right >= 490, sizes, is_small), &(true, 3000, true));
    same(&rt, &(directory.read_index(0) > 0), &true);
    for number in 500..3000 {
        add(&rt, &mut directory, &digits(number), number);
    }
    same(
        &rt,
        &(directory.is_small(), directory.read_index(0)),
        &(false, 0),
    );
    let (right, words) = read_ahead(&directory);
    same(&rt, &(right >= 2900, words >= 2900), &(true, true));
    same(&rt, &directory.fileid_guessed(3000), &Fileid(0));
    mem::forget(directory);
}

/// Cookies, room for entries, and what the page after them has.
const PAGES: [(u64, usize, Listed); 3] = [
    (3, 56, (2, 4, 5, true)),
    (3, 55, (1, 4, 0, false)),
    (u64::MAX, 0, (0, 0, 0, true)),
];

#[test]
fn pages(rt: HostRuntime) {
    let directory = two_names(&rt);
    for (cookie, room, wanted) in &PAGES {
        lists(&rt, &directory, *cookie, *room, wanted);
    }
    mem::forget(directory);
}

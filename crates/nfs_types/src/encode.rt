//! Values that are written where room for them was made.

ghost use Rattle.std.specs.Prelude.{◌≡◌, ◌+◌, ◌≤◌, ◌<◌, ◌^◌, ◌++◌, length, Some, None, vec_len};
ghost use Rattle.std.specs.Prelude.{vec_capacity};
ghost use Rattle.std.specs.Option.{option_map};
ghost use Rattle.xdr.specs.Shape.{Shape, Value, Void, Word, Hyper, Boolean, Pair, Optional};
ghost use Rattle.xdr.specs.Shape.{counted, padded, spelling};
ghost use Rattle.nfs_values.specs.Attributes.{kind_of, kind_word, shown_of, before_of, change_of};
ghost use Rattle.nfs_values.specs.Moment.{moment_of};
ghost use Rattle.nfs_types.specs.Shapes.{handle_shape, any_bytes, verifier_shape, moment_shape};
ghost use Rattle.nfs_types.specs.Shapes.{moment_value, kind_shape, attributes_shape};
ghost use Rattle.nfs_types.specs.Shapes.{attributes_value, prior_shape, prior_value, change_shape};
ghost use Rattle.nfs_types.specs.Shapes.{change_value};

use nfs_values::{
    Attributes, BytesRead, Change, Cookie, FileHandle, FileKind, Fileid, HANDLE_BYTES, Moment,
    Name, PriorAttributes, Verifier, VolumeNumber,
};
use xdr::{put_bool, put_opaque, put_u32, put_u64};

/// A value of a type of XDR, whose spelling is shorter than 2^32 bytes.
pub trait Encode {
    ghost shape: { Shape };

    ghost value: { Self → Value shape };

    /// How many bytes the value takes.
    fn size(&self) -> usize
        requires { length (spelling shape (value self.now)) < 2 ^ 32 }
        ensures { result ≡ length (spelling shape (value self.now)) };

    /// Appends the value, for which there is room.
    fn write(&self, out: &mut Vec<u8>)
        requires short { length (spelling shape (value self.now)) < 2 ^ 32 }
        requires room { vec_len out.old + length (spelling shape (value self.now))
            ≤ vec_capacity out.old }
        ensures items { out.new.items ≡ out.old.items ++ spelling shape (value self.now) }
        ensures capacity { vec_capacity out.old ≤ vec_capacity out.new };
}

/// Appends bytes for which there is room.
pub(crate) fn append(out: &mut Vec<u8>, bytes: &[u8])
    requires { vec_len out.old + length bytes.now ≤ vec_capacity out.old }
    ensures items { out.new.items ≡ out.old.items ++ bytes.now }
    ensures capacity { vec_capacity out.old ≤ vec_capacity out.new }
{
    out.extend_from_slice(bytes).unwrap();
}

impl Encode for u32 {
    ghost shape = { Word };

    ghost value = { λ n. n };

    fn size(&self) -> usize {
        4
    }

    fn write(&self, out: &mut Vec<u8>) {
        put_u32(out, *self).unwrap()
    }
}

impl Encode for u64 {
    ghost shape = { Hyper };

    ghost value = { λ n. n };

    fn size(&self) -> usize {
        8
    }

    fn write(&self, out: &mut Vec<u8>) {
        put_u64(out, *self).unwrap()
    }
}

impl Encode for bool {
    ghost shape = { Boolean };

    ghost value = { λ b. b };

    fn size(&self) -> usize {
        4
    }

    fn write(&self, out: &mut Vec<u8>) {
        put_bool(out, *self).unwrap()
    }
}

/// A value and what stands behind it.
impl<A: Encode, B: Encode> Encode for (A, B) {
    ghost shape = { Pair A.shape B.shape };

    ghost value = { λ p. (A.value p.0, B.value p.1) };

    fn size(&self) -> usize {
        self.0.size() + self.1.size()
    }

    fn write(&self, out: &mut Vec<u8>) {
        self.0.write(out);
        self.1.write(out);
    }
}

/// How many bytes the bytes and their padding take.
pub(crate) fn size_of_fixed(bytes: &[u8]) -> usize
    requires { length (padded bytes.now) < 2 ^ 32 }
    ensures { result ≡ length (padded bytes.now) }
{
    bytes.len() + (4 - bytes.len() % 4) % 4
}

/// How many bytes a length, the bytes and their padding take.
fn size_of_opaque(bytes: &[u8]) -> usize
    requires { length (counted bytes.now) < 2 ^ 32 }
    ensures { result ≡ length (counted bytes.now) }
{
    4 + size_of_fixed(bytes)
}

impl Encode for BytesRead {
    ghost shape = { any_bytes };

    ghost value = { λ b. b };

    fn size(&self) -> usize {
        size_of_opaque(self.as_slice())
    }

    fn write(&self, out: &mut Vec<u8>) {
        put_opaque(out, self.as_slice()).unwrap()
    }
}

/// How many bytes an optional part that is there takes.
pub fn size_of_present<T: Encode>(part: &T) -> usize
    requires { length (spelling (Optional T.shape) (Some (T.value part.now))) < 2 ^ 32 }
    ensures { result ≡ length (spelling (Optional T.shape) (Some (T.value part.now))) }
{
    4 + part.size()
}

/// Appends an optional part that is there, for which there is room.
pub fn write_present<T: Encode>(part: &T, out: &mut Vec<u8>)
    requires short { length (spelling (Optional T.shape) (Some (T.value part.now))) < 2 ^ 32 }
    requires room { vec_len out.old + length (spelling (Optional T.shape) (Some (T.value part.now)))
        ≤ vec_capacity out.old }
    ensures items { out.new.items
        ≡ out.old.items ++ spelling (Optional T.shape) (Some (T.value part.now)) }
    ensures capacity { vec_capacity out.old ≤ vec_capacity out.new }
{
    true.write(out);
    part.write(out);
}

/// An optional part, there or absent.
impl<T: Encode> Encode for Option<T> {
    ghost shape = { Optional T.shape };

    ghost value = { λ o. option_map T.value o };

    fn size(&self) -> usize {
        match self {
            Some(part) => size_of_present(part),
            None => 4,
        }
    }

    fn write(&self, out: &mut Vec<u8>) {
        match self {
            Some(part) => write_present(part, out),
            None => write_absent(out),
        }
    }
}

/// Appends an optional part that is absent, for which there is room.
pub fn write_absent(out: &mut Vec<u8>)
    requires { vec_len out.old + 4 ≤ vec_capacity out.old }
    ensures items { out.new.items ≡ out.old.items ++ spelling (Optional Void) None }
    ensures capacity { vec_capacity out.old ≤ vec_capacity out.new }
{
    false.write(out);
}

impl Encode for FileHandle {
    ghost shape = { handle_shape };

    ghost value = { λ h. h };

    fn size(&self) -> usize {
        size_of_opaque(self.bytes_in(&mut [0; HANDLE_BYTES]))
    }

    fn write(&self, out: &mut Vec<u8>) {
        let mut space = [0; HANDLE_BYTES];
        let bytes = self.bytes_in(&mut space);
        if bytes.len() == HANDLE_BYTES {
            append(out, &counted_handle(bytes));
        } else {
            put_opaque(out, bytes).unwrap()
        }
    }
}

/// The bytes of a handle that names something, behind their length.
fn counted_handle(bytes: &[u8]) -> [u8; 16]
    requires { length bytes.now ≡ 12 }
    ensures { result ≡ counted bytes.now }
{
    let mut all = [0; 16];
    all[..4].copy_from_slice(&(HANDLE_BYTES as u32).to_be_bytes());
    all[4..].copy_from_slice(bytes);
    all
}

impl Encode for Fileid {
    ghost shape = { Hyper };

    ghost value = { λ n. n.0 };

    fn size(&self) -> usize {
        8
    }

    fn write(&self, out: &mut Vec<u8>) {
        self.0.write(out)
    }
}

impl Encode for Cookie {
    ghost shape = { Hyper };

    ghost value = { λ n. n.0 };

    fn size(&self) -> usize {
        8
    }

    fn write(&self, out: &mut Vec<u8>) {
        self.0.write(out)
    }
}

impl Encode for VolumeNumber {
    ghost shape = { Word };

    ghost value = { λ n. n.0 };

    fn size(&self) -> usize {
        4
    }

    fn write(&self, out: &mut Vec<u8>) {
        self.0.write(out)
    }
}

impl Encode for Name {
    ghost shape = { any_bytes };

    ghost value = { λ n. n };

    fn size(&self) -> usize {
        size_of_opaque(self.as_bytes())
    }

    fn write(&self, out: &mut Vec<u8>) {
        put_opaque(out, self.as_bytes()).unwrap()
    }
}

impl Encode for Verifier {
    ghost shape = { verifier_shape };

    ghost value = { λ v. v.0 };

    fn size(&self) -> usize {
        size_of_fixed(&self.0)
    }

    fn write(&self, out: &mut Vec<u8>) {
        append(out, &verifier_bytes(*self));
    }
}

/// The bytes of a verifier, which need no padding.
pub(crate) fn verifier_bytes(verifier: Verifier) -> [u8; 8]
    ensures { result ≡ spelling verifier_shape verifier.0 }
{
    verifier.0
}

impl Encode for Moment {
    ghost shape = { moment_shape };

    ghost value = { λ m. moment_value (moment_of m) };

    fn size(&self) -> usize {
        8
    }

    fn write(&self, out: &mut Vec<u8>) {
        append(out, &moment_bytes(*self));
    }
}

/// The bytes of a time.
fn moment_bytes(moment: Moment) -> [u8; 8]
    ensures { result ≡ spelling moment_shape (moment_value (moment_of moment)) }
{
    two_words(moment.seconds, moment.nanoseconds)
}

/// Bytes, and those that stand behind them.
pub(crate) fn join<const A: usize, const B: usize, const N: usize>(
    first: [u8; A],
    second: [u8; B],
) -> [u8; N]
    requires { A + B ≡ N }
    ensures { result ≡ first.entry ++ second.entry }
{
    let mut bytes = [0; N];
    let all = &mut bytes[..];
    all[..A].copy_from_slice(&first);
    all[A..].copy_from_slice(&second);
    bytes
}

/// The bytes of two words.
pub(crate) fn two_words(first: u32, second: u32) -> [u8; 8]
    ensures { result ≡ spelling Word first ++ spelling Word second }
{
    let mut bytes = [0; 8];
    bytes[..4].copy_from_slice(&first.to_be_bytes());
    bytes[4..].copy_from_slice(&second.to_be_bytes());
    bytes
}

/// The bytes of two hypers.
fn two_hypers(first: u64, second: u64) -> [u8; 16]
    ensures { result ≡ spelling Hyper first ++ spelling Hyper second }
{
    let mut bytes = [0; 16];
    bytes[..8].copy_from_slice(&first.to_be_bytes());
    bytes[8..].copy_from_slice(&second.to_be_bytes());
    bytes
}

impl Encode for FileKind {
    ghost shape = { kind_shape };

    ghost value = { λ k. kind_word (kind_of k) };

    fn size(&self) -> usize {
        4
    }

    fn write(&self, out: &mut Vec<u8>) {
        self.word().write(out)
    }
}

impl Encode for Attributes {
    ghost shape = { attributes_shape };

    ghost value = { λ a. attributes_value (shown_of a) };

    fn size(&self) -> usize {
        84
    }

    fn write(&self, out: &mut Vec<u8>) {
        let device = self.kind.device();
        let kind = two_words(self.kind.word(), self.mode);
        let links = two_words(self.links, self.uid);
        let gid = self.gid.to_be_bytes();
        let sizes = two_hypers(self.size, self.used);
        let rdev = two_words(device.major, device.minor);
        let ids = two_hypers(self.fsid, self.fileid.0);
        let atime = moment_bytes(self.atime);
        let mtime = moment_bytes(self.mtime);
        let ctime = moment_bytes(self.ctime);
        let first: [u8; 16] = join(kind, links);
        let second: [u8; 20] = join(gid, sizes);
        let third: [u8; 24] = join(rdev, ids);
        let last: [u8; 24] = join(atime, join::<8, 8, 16>(mtime, ctime));
        let before: [u8; 36] = join(first, second);
        let behind: [u8; 48] = join(third, last);
        append(out, &join::<36, 48, 84>(before, behind));
    }
}

impl Encode for PriorAttributes {
    ghost shape = { prior_shape };

    ghost value = { λ a. prior_value (before_of a) };

    fn size(&self) -> usize {
        24
    }

    fn write(&self, out: &mut Vec<u8>) {
        let size = self.size.to_be_bytes();
        let mtime = moment_bytes(self.mtime);
        let ctime = moment_bytes(self.ctime);
        let times: [u8; 16] = join(mtime, ctime);
        append(out, &join::<8, 16, 24>(size, times));
    }
}

impl Encode for Change {
    ghost shape = { change_shape };

    ghost value = { λ c. change_value (change_of c) };

    fn size(&self) -> usize {
        size_of_present(&self.before) + size_of_present(&self.after)
    }

    fn write(&self, out: &mut Vec<u8>) {
        write_present(&self.before, out);
        write_present(&self.after, out);
    }
}

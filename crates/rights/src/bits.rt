//! Bits of a mode, each given by its value.

ghost use Rattle.std.specs.Prelude.{◌≡◌, ◌+◌, ◌<◌, ◌≤◌, ◌^◌};
ghost use Rattle.nfs_model.specs.Serial.Rights.{has_bit, with_bit, without_bit, without_set_ids};

/// The bit by which a program runs as its owner (S_ISUID).
const SET_UID: u32 = 0o4000;

/// The bit by which a program runs as its group, and by which what is made in a directory has the
/// directory's group (S_ISGID).
pub(crate) const SET_GID: u32 = 0o2000;

/// The bit of a directory in which only owners remove (S_ISVTX).
pub(crate) const STICKY: u32 = 0o1000;

/// Whether a number has a bit.
pub fn has_bit(number: u32, bit: u32) -> bool
    requires { 0 < bit }
    ensures { result ≡ has_bit number bit }
{
    number / bit % 2 == 1
}

/// A number with a bit.
pub(crate) fn with_bit(number: u32, bit: u32) -> u32
    requires positive { 0 < bit }
    requires fits { number + bit < 2 ^ 32 }
    ensures { result ≡ with_bit number bit }
{
    if has_bit(number, bit) {
        return number;
    }
    number + bit
}

/// A number without a bit.
pub(crate) fn without_bit(number: u32, bit: u32) -> u32
    requires { 0 < bit }
    ensures given { result ≡ without_bit number bit }
    ensures most { result ≤ number }
{
    if has_bit(number, bit) {
        return number - bit;
    }
    number
}

/// A mode of a file that others change: it isn't run as its owner, nor as its group, which it is
/// only where the group may execute it.
pub fn without_set_ids(mode: u16) -> u16
    ensures { result ≡ without_set_ids mode }
{
    let mode = u32::from(mode);
    let kept = without_bit(mode, SET_UID);
    if has_bit(mode, 0o010) {
        return without_bit(kept, SET_GID) as u16;
    }
    kept as u16
}

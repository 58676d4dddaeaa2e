//! Slots for sets.

ghost use Rattle.std.specs.Prelude.{◌≡◌, ◌≢◌, ◌<◌, ℕ, List, Option, Some, None, slice_get};

/// Up to N values, by number.
#[derive(Drop)]
pub struct SlotArray<T, const N: usize> {
    pub at: [Option<T>; N],
}

/// Slots by number, of any type, so that what goes over them is proved without their size.
pub(crate) trait Slots<H> {
    ghost room: { ℕ };

    // What is in the slots.
    ghost at: { Self → List (Option H) };

    /// Puts a value into a slot, or nothing.
    fn fill(&mut self, slot: usize, value: Option<H>)
        requires { slot < room }
        ensures there { slice_get (at self.new) slot ≡ Some value }
        ensures others { (i : ℕ) → i ≢ slot
            → slice_get (at self.new) i ≡ slice_get (at self.old) i };

    /// Takes what is in a slot.
    fn empty(&mut self, slot: usize) -> Option<H>
        requires { slot < room }
        ensures taken { slice_get (at self.old) slot ≡ Some result }
        ensures others { (i : ℕ) → i ≢ slot
            → slice_get (at self.new) i ≡ slice_get (at self.old) i };
}

impl<H: Drop, const N: usize> Slots<H> for SlotArray<H, N> {
    ghost room = { N };

    ghost at = { λ slots. slots.at };

    fn fill(&mut self, slot: usize, value: Option<H>)
        requires { slot < N }
        ensures there { slice_get self.new.at slot ≡ Some value }
        ensures others { (i : ℕ) → i ≢ slot → slice_get self.new.at i ≡ slice_get self.old.at i }
    {
        self.at[slot] = value;
    }

    fn empty(&mut self, slot: usize) -> Option<H>
        requires { slot < N }
        ensures taken { slice_get self.old.at slot ≡ Some result }
        ensures others { (i : ℕ) → i ≢ slot → slice_get self.new.at i ≡ slice_get self.old.at i }
    {
        self.at[slot].take()
    }
}

/// Two empty slots.
pub fn two_slots<T>() -> SlotArray<T, 2>
    ensures { (i : ℕ) → i < 2 → slice_get result.at i ≡ Some None }
{
    SlotArray { at: [None, None] }
}

/// Eight empty slots.
pub fn eight_slots<T>() -> SlotArray<T, 8>
    ensures { (i : ℕ) → i < 8 → slice_get result.at i ≡ Some None }
{
    SlotArray {
        at: [None, None, None, None, None, None, None, None],
    }
}

/// Sixteen empty slots.
pub fn sixteen_slots<T>() -> SlotArray<T, 16>
    ensures { (i : ℕ) → i < 16 → slice_get result.at i ≡ Some None }
{
    SlotArray {
        at: [
            None, None, None, None, None, None, None, None, None, None, None, None, None, None,
            None, None,
        ],
    }
}

//! Trees balanced anew.

ghost use Rattle.std.specs.Prelude.{◌≡◌, ◌+◌, ◌<◌, ◌^◌, length};
ghost use Rattle.directories.specs.sequences.Values.{DifferByAtMost, IsHeightOver, MayRise};
ghost use Rattle.directories.specs.sequences.Opened.{chunk_of, all_of};

use crate::sequences::tree::{Parts, Tree};

impl<T: Copy> Parts<T> {
    /// The tree of these parts, of whose sides one may be two levels higher.
    pub(crate) fn balance(self) -> Tree<T>
        requires some { 0 < length (chunk_of self) }
        requires fits { length (all_of self) < 2 ^ 64 }
        requires nearly { DifferByAtMost 2 self.left.height self.right.height }
        ensures items { result.items ≡ all_of self }
        ensures height { IsHeightOver self.left.height self.right.height result.height }
    {
        let left = self.left.height();
        let right = self.right.height();
        if left.saturating_sub(right) > 1 {
            return lean_left(self);
        }
        if right.saturating_sub(left) > 1 {
            return lean_right(self);
        }
        self.join()
    }
}

/// The tree of parts whose left side is two levels higher.
fn lean_left<T: Copy>(parts: Parts<T>) -> Tree<T>
    requires some { 0 < length (chunk_of parts) }
    requires fits { length (all_of parts) < 2 ^ 64 }
    requires higher { parts.left.height ≡ parts.right.height + 2 }
    ensures items { result.items ≡ all_of parts }
    ensures height { MayRise parts.left.height result.height }
{
    let Parts { left, chunk, right } = parts;
    let upper = match left.open() {
        Some(upper) => upper,
        None => unreachable!(),
    };
    if upper.left.height() >= upper.right.height() {
        let lower = Parts {
            left: upper.right,
            chunk,
            right,
        };
        return Parts {
            left: upper.left,
            chunk: upper.chunk,
            right: lower.join(),
        }
        .join();
    }
    let top = match upper.right.open() {
        Some(top) => top,
        None => unreachable!(),
    };
    let before = Parts {
        left: upper.left,
        chunk: upper.chunk,
        right: top.left,
    };
    let after = Parts {
        left: top.right,
        chunk,
        right,
    };
    Parts {
        left: before.join(),
        chunk: top.chunk,
        right: after.join(),
    }
    .join()
}

/// The tree of parts whose right side is two levels higher.
fn lean_right<T: Copy>(parts: Parts<T>) -> Tree<T>
    requires some { 0 < length (chunk_of parts) }
    requires fits { length (all_of parts) < 2 ^ 64 }
    requires higher { parts.right.height ≡ parts.left.height + 2 }
    ensures items { result.items ≡ all_of parts }
    ensures height { MayRise parts.right.height result.height }
{
    let Parts { left, chunk, right } = parts;
    let upper = match right.open() {
        Some(upper) => upper,
        None => unreachable!(),
    };
    if upper.right.height() >= upper.left.height() {
        let lower = Parts {
            left,
            chunk,
            right: upper.left,
        };
        return Parts {
            left: lower.join(),
            chunk: upper.chunk,
            right: upper.right,
        }
        .join();
    }
    let top = match upper.left.open() {
        Some(top) => top,
        None => unreachable!(),
    };
    let front = Parts {
        left,
        chunk,
        right: top.left,
    };
    let back = Parts {
        left: top.right,
        chunk: upper.chunk,
        right: upper.right,
    };
    Parts {
        left: front.join(),
        chunk: top.chunk,
        right: back.join(),
    }
    .join()
}

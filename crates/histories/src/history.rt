//! Lists that only clauses read.

ghost use Rattle.std.specs.Prelude.{◌≡◌, List, [], ◌∷◌, ◌++◌};
ghost use Rattle.std.specs.Borrow.{ftrue};

use std::marker::{Model, PhantomData};

/// What there was, in order. It takes no memory, and its functions do nothing at run time. A clause
/// reads the list as `items`.
#[derive(Drop)]
pub struct History<T> {
    of: PhantomData<T>,
    pub ghost items: { List T },
}

impl<T> Model for History<T> {
    ghost also_owns = { λ _. ftrue };
}

// It owns nothing.
unsafe impl<T> Send for History<T> {}

impl<T> History<T> {
    /// Nothing was yet.
    pub fn new() -> History<T>
        ensures { result.items ≡ [] }
    {
        History { of: PhantomData }
    }

    /// What there was, and then this.
    pub fn and(&self, last: &T) -> History<T>
        ensures { result.items ≡ self.now.items ++ last.now ∷ [] }
    {
        History { of: PhantomData }
    }

    /// What there was, and then all of these.
    pub fn and_all(&self, more: &[T]) -> History<T>
        ensures { result.items ≡ self.now.items ++ more.now }
    {
        History { of: PhantomData }
    }
}

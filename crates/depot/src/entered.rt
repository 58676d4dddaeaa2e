//! What a call, or its reply, is entered as.

/// What stands for a call, or for its reply, where an entry of the history is made: the entry has
/// the call or reply of the machine that this is entered as. So who has one case of a machine's
/// calls or replies hands on a reference to that.
pub trait Entered<T> {
    ghost entered: { Self → T };
}

impl<T> Entered<T> for T {
    ghost entered = { λ x. x };
}

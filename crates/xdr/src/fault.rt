//! Why bytes could not be read.

ghost use Rattle.std.specs.Prelude.{◌≡◌};

/// What is wrong with bytes: the first fault from left to right.
#[derive(Clone, Copy, Debug, PartialEq, Eq)]
pub enum Fault {
    /// An item reaches past the end.
    Short = 1,
    /// A boolean is neither 0 nor 1.
    BadBool = 2,
    /// A number is none of an enumeration's, or of a union's discriminants.
    BadEnum = 3,
    /// A byte of padding is not zero.
    BadPad = 4,
    /// A length is above its type's.
    TooLong = 5,
    /// Bytes stand behind the last item.
    LeftOver = 6,
}

impl Fault {
    ghost use Rattle.xdr.specs.Fault.{fault_number};

    /// The number by which a fault is told, 1 to 6.
    pub fn number(self) -> u32
        ensures { result ≡ fault_number self }
    {
        self as u32
    }
}

//! Why a connection isn't opened.

ghost use Rattle.std.specs.Prelude.{◌≡◌};

/// Why a connection isn't opened. Nothing changed then.
#[derive(Clone, Copy)]
pub enum OpenRefusal {
    /// As many connections are open as may be, or no number is left.
    Full = 31,
    /// Memory ran out.
    NoMemory = 90,
}

impl OpenRefusal {
    ghost use Rattle.outboxes.specs.Numbers.{refusal_number};

    /// The number by which the refusal is told.
    pub fn number(self) -> u32
        ensures { result ≡ refusal_number self }
    {
        self as u32
    }
}

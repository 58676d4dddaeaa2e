//! Why serving ends early.

ghost use Rattle.std.specs.Prelude.{◌≡◌};

/// Why no more connections are accepted.
#[derive(Clone, Copy)]
pub enum ServeFault {
    /// The listener failed.
    AcceptFailed,
}

impl ServeFault {
    ghost use Rattle.server.specs.Numbers.{serve_fault_number};

    /// The number by which the fault is told.
    pub fn number(self) -> u32
        ensures { result ≡ serve_fault_number self }
    {
        match self {
            ServeFault::AcceptFailed => 63,
        }
    }
}

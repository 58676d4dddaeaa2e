//! Why a call doesn't begin.

ghost use Rattle.std.specs.Prelude.{◌≡◌};

/// Why a call doesn't begin.
#[derive(Clone, Copy)]
pub enum BeginRefusal {
    /// Something is lent that excludes the affinity.
    Taken,
    /// 2^62 calls were finished.
    Worn,
}

impl BeginRefusal {
    ghost use Rattle.desk.specs.BeginRefusal.{refusal_number};

    /// Its number, as scripts print it: 21 where something is lent, 22 where the desk is worn.
    pub fn number(self) -> u32
        ensures { result ≡ refusal_number self }
    {
        match self {
            BeginRefusal::Taken => 21,
            BeginRefusal::Worn => 22,
        }
    }
}

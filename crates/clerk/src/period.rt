//! How often statistics are told.

ghost use Rattle.std.specs.Prelude.{◌≤◌, ◌<◌};

/// The most minutes: a day.
pub const MOST_MINUTES: u32 = 1_440;

const MILLISECONDS_OF_A_MINUTE: u64 = 60_000;

/// This many minutes lie between two lines of statistics.
#[derive(Clone, Copy)]
pub struct Period {
    pub minutes: u32,
    pub ghost some: { 0 < minutes },
    pub ghost fits: { minutes ≤ 1440 },
}

impl Period {
    ghost use Rattle.std.specs.Prelude.{◌≡◌, ◌*◌, IfNone, IfSome};
    ghost use Rattle.clerk.specs.Periods.{AreMinutes};

    /// This many minutes, from 1 to 1,440.
    pub fn new(minutes: u32) -> Option<Period>
        ensures given { IfSome result (λ period. period.minutes ≡ minutes) }
        ensures in_range { IfSome result (λ period. AreMinutes minutes) }
        ensures refused { IfNone result (AreMinutes minutes → ⊥) }
    {
        if minutes == 0 || minutes > MOST_MINUTES {
            return None;
        }
        Some(Period { minutes })
    }

    /// The same in milliseconds.
    pub fn milliseconds(self) -> u64
        ensures { result ≡ 60000 * self.minutes }
    {
        MILLISECONDS_OF_A_MINUTE * u64::from(self.minutes)
    }
}

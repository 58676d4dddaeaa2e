//! Idle connections.

ghost use Rattle.std.specs.Prelude.{◌↔◌, ◌≤◌, ◌<◌, ◌+◌, IsTrue};

/// The most seconds after which a connection may be taken for idle: a day.
pub const MOST_IDLE_SECONDS: u32 = 86_400;

/// After how many seconds without a word of its peer a connection is idle.
#[derive(Clone, Copy)]
pub struct IdleTime {
    pub seconds: u32,
    pub ghost some: { 0 < seconds },
    pub ghost fits: { seconds ≤ 86400 },
}

impl IdleTime {
    ghost use Rattle.std.specs.Prelude.{◌≡◌, IfNone, IfSome};
    ghost use Rattle.server_options.specs.Asked.{AreIdleSeconds};

    /// This many seconds, from 1 to 86,400.
    pub fn new(seconds: u32) -> Option<IdleTime>
        ensures given { IfSome result (λ time. time.seconds ≡ seconds) }
        ensures in_range { IfSome result (λ time. AreIdleSeconds seconds) }
        ensures refused { IfNone result (AreIdleSeconds seconds → ⊥) }
    {
        if seconds == 0 || seconds > MOST_IDLE_SECONDS {
            return None;
        }
        Some(IdleTime { seconds })
    }

    /// Whether who was heard of last in one second is idle in another one.
    pub fn is_over(&self, heard: u32, now: u32) -> bool
        ensures { IsTrue result ↔ (heard + self.now.seconds ≤ now) }
    {
        u64::from(heard) + u64::from(self.seconds) <= u64::from(now)
    }
}

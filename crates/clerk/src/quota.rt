//! What is told at most once a second.

ghost use Rattle.std.specs.Prelude.{◌≡◌, ◌↔◌, ◌<◌, ◌+◌, ◌-◌, min};
ghost use Rattle.std.specs.Prelude.{IfNone, IfSome, IsNone, IsSome, OnSome};
ghost use Rattle.clerk.specs.Quotas.{told_at, IsDue};

/// The milliseconds between two lines of one kind.
const APART: u64 = 1_000;

/// How often something happened since it was told last, and from when on it may be told again, in
/// milliseconds of any clock.
#[derive(Clone, Copy)]
pub struct Quota {
    pub count: u64,
    pub next: u64,
}

impl Quota {
    /// It never happened.
    pub fn new() -> Quota
        ensures { result ≡ record { count = 0; next = 0 } }
    {
        Quota { count: 0, next: 0 }
    }

    /// It happened so often.
    pub fn add(&mut self, count: u64)
        ensures { self.new ≡ record self.old { count = min (self.old.count + count) u64.MAX } }
    {
        self.count = self.count.saturating_add(count);
    }

    /// How often it happened, if that is to be told now: then not again for a second.
    pub fn take(&mut self, now: u64) -> Option<u64>
        ensures due { IsSome result ↔ IsDue self.old now }
        ensures count { IfSome result (λ count. count ≡ self.old.count) }
        ensures told { OnSome result (self.new ≡ told_at now) }
        ensures kept { IfNone result (self.new ≡ self.old) }
    {
        if self.count == 0 || now < self.next {
            return None;
        }
        let count = self.count;
        self.count = 0;
        self.next = now.saturating_add(APART);
        Some(count)
    }

    /// In how many milliseconds it is to be told, if it happened.
    pub fn wait(&self, now: u64) -> Option<u64>
        ensures none { IsNone result ↔ (self.now.count ≡ 0) }
        ensures wait { IfSome result (λ wait. wait ≡ self.now.next - now) }
    {
        if self.count == 0 {
            return None;
        }
        Some(self.next.saturating_sub(now))
    }
}

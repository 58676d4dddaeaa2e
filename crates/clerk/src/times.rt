//! When calls came that aren't finished yet.

ghost use Rattle.std.specs.Prelude.{◌≡◌, ◌<◌};

use std::alloc::{AllocError, Global};
use std::collections::VecDeque;

/// Calls that came at one time, in microseconds of any clock.
#[derive(Clone, Copy)]
pub struct Span {
    pub since: u64,
    pub calls: usize,
    pub ghost some: { 0 < calls },
}

/// When each call came that isn't finished, as far as is known: one time for each of them, the
/// first that came first. Which of them is finished isn't told: it is taken to be the first.
#[derive(Drop)]
pub struct Times {
    pub(crate) first: Option<Span>,
    pub(crate) behind: VecDeque<Span>,
}

impl Times {
    ghost use Rattle.std.specs.Prelude.{◌↔◌, ◌≤◌, ◌++◌, ◌⊎◌, [], replicate, true, false};
    ghost use Rattle.std.specs.Prelude.{IfNone, IfOk, IfSome, IsNone, None};
    ghost use Rattle.clerk.specs.Times.{times_in};

    /// No call, and room for this many times.
    pub fn new(alloc: Global, most: usize) -> Result<Times, AllocError>
        ensures { IfOk result (λ times. times_in times ≡ []) }
    {
        Ok(Times {
            first: None,
            behind: VecDeque::with_capacity(alloc, most)?,
        })
    }

    /// This many calls came at a time. Answers whether that is kept: it isn't where memory runs
    /// out.
    pub fn put(&mut self, since: u64, calls: usize) -> bool
        ensures kept { result ≡ true
            → times_in self.new ≡ times_in self.old ++ replicate calls since }
        ensures lost { result ≡ false → times_in self.new ≡ times_in self.old }
    {
        if calls == 0 {
            return true;
        }
        self.behind.push_back(Span { since, calls }).is_ok()
    }

    /// Takes the calls that came first, if there are some.
    fn next(&mut self) -> Option<Span>
        ensures some { IfSome result (λ span.
            times_in self.old ≡ replicate span.calls span.since ++ times_in self.new) }
        ensures first { self.new.first ≡ None }
        ensures none { IfNone result ((times_in self.old ≡ []) × (times_in self.new ≡ [])) }
    {
        if let Some(span) = self.first.take() {
            return Some(span);
        }
        self.behind.pop_front()
    }

    /// Takes the first calls, as many as came at one time, but at most this many.
    pub fn take(&mut self, most: usize) -> Option<Span>
        ensures taken { IfSome result (λ span.
            times_in self.old ≡ replicate span.calls span.since ++ times_in self.new) }
        ensures few { IfSome result (λ span. span.calls ≤ most) }
        ensures none { IsNone result ↔ ((most ≡ 0) ⊎ (times_in self.old ≡ [])) }
        ensures kept { IfNone result (times_in self.new ≡ times_in self.old) }
    {
        if most == 0 {
            return None;
        }
        let Some(span) = self.next() else {
            return None;
        };
        if span.calls <= most {
            return Some(span);
        }
        let Span { since, calls } = span;
        self.first = Some(Span {
            since,
            calls: calls - most,
        });
        Some(Span { since, calls: most })
    }
}

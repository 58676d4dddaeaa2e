//! The clerk.

use crate::clock::milliseconds;
use crate::counts::Counts;
use crate::journal::{Journal, MOST_EVENTS};
use crate::page::Page;
use crate::period::Period;
use crate::report::Inquiry;
use mio::{Events, Poll};
use std::alloc::Global;
use std::io::{self, Write};
use std::net::Net;
use std::rt::Clock;
use std::sync::Wait;
use std::time::Duration;

/// The most events that one poll gives.
const EVENTS: usize = 4;

/// How long the clerk pauses where its poll failed, in milliseconds.
const PAUSE: u64 = 100;

/// Who writes what a journal has.
pub struct Clerk {
    poll: Poll,
    events: Events,
    page: Page,
}

// By hand, so that crates above have no proof of the drop of each of its parts.
impl Drop for Clerk {
    fn drop(self) {
        let Clerk {
            poll: _,
            events: _,
            page: _,
        } = self;
    }
}

impl Clerk {
    /// A clerk with nothing to write.
    pub fn new(alloc: Global, net: &impl Net) -> io::Result<Clerk> {
        Ok(Clerk {
            poll: Poll::new(net)?,
            events: Events::with_capacity(alloc, EVENTS)?,
            page: Page::new(alloc)?,
        })
    }

    /// An empty journal of this clerk: each connection is told of, or only what goes wrong.
    pub fn journal(&self, alloc: Global, is_log: bool) -> io::Result<Journal> {
        Journal::new(alloc, self.poll.registry(), is_log)
    }

    /// Puts a line for each event that was left.
    fn put_events<R: Wait, E: Write>(&mut self, rt: &R, journal: &Journal, err: &mut E) {
        for _ in 0..MOST_EVENTS {
            match journal.take(rt) {
                Some(event) => self.page.put(&event, err),
                None => return,
            }
        }
    }

    /// Writes all that may be told now.
    fn write<R: Wait, I: Inquiry, E: Write>(
        &mut self,
        rt: &R,
        journal: &Journal,
        inquiry: &I,
        counts: &mut Counts,
        now: u64,
        err: &mut E,
    ) {
        self.put_events(rt, journal, err);
        counts.gather(journal);
        counts.put(&mut self.page, journal, now, err);
        counts.put_refusals(&mut self.page, inquiry, now, err);
        counts.put_report(&mut self.page, inquiry, now, err);
        self.page.flush(err);
    }

    /// Sleeps until it is woken, or for this many milliseconds.
    fn sleep<R: Clock>(&mut self, rt: &R, longest: Option<u64>) {
        let longest = longest.map(Duration::from_millis);
        if self.poll.poll(&mut self.events, longest).is_err() {
            rt.sleep(Duration::from_millis(PAUSE));
        }
    }
}

/// Writes what is left in the journal of this clerk, until that has ended and all is written; and
/// with a period statistics, after each and at the end. It sleeps while there is nothing.
pub fn write_until_end<R: Wait + Clock, I: Inquiry, E: Write>(
    rt: &R,
    clerk: &mut Clerk,
    journal: &Journal,
    inquiry: &I,
    period: Option<Period>,
    err: &mut E,
) {
    let mut counts = Counts::new(period, milliseconds(rt));
    for _ in rt.forever() {
        // before it is asked whether the end came, so that an end that comes later wakes the clerk
        journal.look();
        let has_ended = journal.has_ended();
        let now = if has_ended {
            u64::MAX
        } else {
            milliseconds(rt)
        };
        clerk.write(rt, journal, inquiry, &mut counts, now, err);
        if has_ended {
            return;
        }
        clerk.sleep(rt, counts.wait(now));
    }
}

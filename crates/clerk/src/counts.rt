//! What the clerk tells of by counts, from time to time.

use crate::journal::Journal;
use crate::page::Page;
use crate::period::Period;
use crate::quota::Quota;
use crate::report::{Inquiry, Report, totals_of};
use statistics::{ReplyKind, Totals};
use std::io::{self, Write};

/// What was counted when it was told last, and what waits until it may be told.
pub(crate) struct Counts {
    turned_away: Quota,
    failed: Quota,
    dropped: Quota,
    refused: Quota,
    /// What was counted when refusals were told last.
    at_refusal: Totals,
    /// What was counted when statistics were told last, how many milliseconds lie between their
    /// lines, if they are told, and when the next is due.
    at_report: Totals,
    period: Option<Period>,
    next: u64,
}

// By hand, so that crates above have no proof of the drop of each of its parts.
impl Drop for Counts {
    fn drop(self) {
        let Counts {
            turned_away: _,
            failed: _,
            dropped: _,
            refused: _,
            at_refusal: _,
            at_report: _,
            period: _,
            next: _,
        } = self;
    }
}

/// The time of the next line of statistics, after one at this time.
fn time_after(period: Option<Period>, now: u64) -> u64 {
    match period {
        Some(period) => now.saturating_add(period.milliseconds()),
        None => u64::MAX,
    }
}

/// Puts how many connections couldn't be accepted, and why the last of them.
fn put_failed<E: Write>(page: &mut Page, error: Option<i32>, count: u64, err: &mut E) {
    match error {
        Some(code) => {
            let error = io::Error::from_raw_os_error(code);
            page.put(&format_args!("can't be accepted: {count}, {error}"), err);
        }
        None => page.put(&format_args!("can't be accepted: {count}"), err),
    }
}

/// Puts the refusals among what was counted, by kind, and for how many calls there was no memory.
fn put_refused<E: Write>(page: &mut Page, since: &Totals, err: &mut E) {
    if since.refused() > 0 {
        page.put(&since.refusals(), err);
    }
    let starved = since.replies(ReplyKind::STARVED);
    if starved > 0 {
        page.put(&format_args!("out of memory for calls: {starved}"), err);
    }
}

impl Counts {
    /// Nothing was told before this time, in milliseconds.
    pub(crate) fn new(period: Option<Period>, now: u64) -> Counts {
        Counts {
            turned_away: Quota::new(),
            failed: Quota::new(),
            dropped: Quota::new(),
            refused: Quota::new(),
            at_refusal: Totals::new(),
            at_report: Totals::new(),
            period,
            next: time_after(period, now),
        }
    }

    /// Takes what was left in the journal.
    pub(crate) fn gather(&mut self, journal: &Journal) {
        self.turned_away.add(journal.take_turned_away());
        self.failed.add(journal.take_failed());
        self.dropped.add(journal.take_dropped());
        self.refused.add(journal.take_refused());
    }

    /// Puts what may be told now of connections that weren't let in, and of lines left out.
    pub(crate) fn put<E: Write>(
        &mut self,
        page: &mut Page,
        journal: &Journal,
        now: u64,
        err: &mut E,
    ) {
        if let Some(count) = self.turned_away.take(now) {
            let line = format_args!("closed at once, since as many are open as may be: {count}");
            page.put(&line, err);
        }
        if let Some(count) = self.failed.take(now) {
            put_failed(page, journal.last_error(), count, err);
        }
        if let Some(count) = self.dropped.take(now) {
            page.put(&format_args!("lines that were left out: {count}"), err);
        }
    }

    /// Puts the refusals since they were told last, if they may be told now.
    pub(crate) fn put_refusals<I: Inquiry, E: Write>(
        &mut self,
        page: &mut Page,
        inquiry: &I,
        now: u64,
        err: &mut E,
    ) {
        if self.refused.take(now).is_none() {
            return;
        }
        let totals = totals_of(inquiry.tallies());
        let since = totals.since(&self.at_refusal);
        put_refused(page, &since, err);
        self.at_refusal = totals;
    }

    /// Puts the line of statistics, if it is due.
    pub(crate) fn put_report<I: Inquiry, E: Write>(
        &mut self,
        page: &mut Page,
        inquiry: &I,
        now: u64,
        err: &mut E,
    ) {
        if self.period.is_none() || now < self.next {
            return;
        }
        let totals = totals_of(inquiry.tallies());
        let report = Report {
            totals: totals.since(&self.at_report),
            open: inquiry.open(),
            used: inquiry.used(),
        };
        page.put(&report, err);
        self.at_report = totals;
        self.next = time_after(self.period, self.next);
    }

    /// In how many milliseconds something may be told that waits, if something does.
    pub(crate) fn wait(&self, now: u64) -> Option<u64> {
        let mut least = self.period.map(|_period| self.next.saturating_sub(now));
        for quota in [self.turned_away, self.failed, self.dropped, self.refused] {
            if let Some(wait) = quota.wait(now) {
                least = Some(least.map_or(wait, |other| other.min(wait)));
            }
        }
        least
    }
}

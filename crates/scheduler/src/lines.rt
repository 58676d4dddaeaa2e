//! Queues in one table of cells, linked by cell numbers.

ghost use Rattle.std.specs.Prelude.{◌≡◌, ◌+◌, ◌<◌, ◌≤◌, ℕ, [], ◌∷◌, ◌++◌, length, Some, None, IfOk};
ghost use Rattle.std.specs.Prelude.{slice_set};
ghost use Rattle.scheduler.specs.Lines.{IsIn, IsFirstFrom, IsLastBelow, IsLinked};
ghost use Rattle.scheduler.specs.Lines.{IsEnded, entry};

use crate::queue_number::QUEUES;
use std::alloc::{AllocError, Global};
use std::marker::Model;

/// How many cells a table has.
pub(crate) const CELLS: usize = 2_048;

/// Cells by number, each vacant or in one of 283 queues; a queue's cells in the order of their
/// numbers. Only `new` takes memory: it has room for 2,048 cells.
#[derive(Drop)]
pub(crate) struct Lines {
    cells: Vec<Option<usize>>,
    /// The first cell of each queue.
    first: Vec<Option<usize>>,
    /// The last cell of each queue.
    last: Vec<Option<usize>>,
    /// The cell after each in its queue.
    next: Vec<Option<usize>>,
}

impl Model for Lines {
    ghost use Rattle.std.specs.Prelude.{◌≤◌, ℕ, List, Option, vec_capacity};
    ghost use Rattle.scheduler.specs.Lines.{AreLined};

    ghost Value = { List (Option ℕ) };

    ghost view = { λ l. l.cells.items };

    ghost invariant = { λ l. AreLined l.cells.items l.first.items l.last.items l.next.items
        × (2048 ≤ vec_capacity l.cells) × (2048 ≤ vec_capacity l.next) };
}

impl Lines {
    /// No cell yet, and room for all.
    pub(crate) fn new(alloc: Global) -> Result<Lines, AllocError>
        ensures { IfOk result (λ lines. lines ≡ []) }
    {
        Ok(Lines {
            cells: Vec::with_capacity(alloc, CELLS)?,
            first: vec![in alloc; None; QUEUES]?,
            last: vec![in alloc; None; QUEUES]?,
            next: Vec::with_capacity(alloc, CELLS)?,
        })
    }

    /// The number of cells, vacant ones among them.
    pub(crate) fn len(&self) -> usize
        ensures { result ≡ length self.now }
    {
        self.cells.len()
    }

    /// The first cell of a queue.
    pub(crate) fn first(&self, queue: usize) -> Option<usize>
        requires { queue < 283 }
        ensures { IsFirstFrom (IsIn self.now queue) 0 result }
    {
        self.first[queue]
    }

    /// Adds a cell, the last of a queue, in constant time.
    pub(crate) fn push(&mut self, queue: usize)
        requires room { length self.old < 2048 }
        requires queue { queue < 283 }
        ensures { self.new ≡ self.old ++ Some queue ∷ [] }
    {
        let cell = self.cells.len();
        let before = self.last[queue];
        link(&mut self.first, &mut self.next, queue, before, Some(cell));
        self.last[queue] = Some(cell);
        self.next.push_reserved(None);
        self.cells.push_reserved(Some(queue));
    }

    /// Takes a cell out of its queue, which leaves it vacant. It goes over the cells back to the
    /// one before in the queue, and takes constant time where the cell is the first.
    pub(crate) fn vacate(&mut self, cell: usize, queue: usize)
        requires { IsIn self.old queue cell }
        ensures { self.new ≡ slice_set self.old cell None }
    {
        let next = self.next[cell];
        let before = cell_before(&self.cells, &self.first, queue, cell);
        link(&mut self.first, &mut self.next, queue, before, next);
        end(&mut self.last, queue, before, next);
        self.cells[cell] = None;
    }

    /// Forgets all cells.
    pub(crate) fn clear(&mut self)
        ensures { self.new ≡ [] }
    {
        self.cells.clear();
        self.next.clear();
        self.first.fill(None);
        self.last.fill(None);
    }
}

/// Makes a cell, or none, the first of a queue, or the next after the cell that is before it.
fn link(
    first: &mut [Option<usize>],
    next: &mut [Option<usize>],
    queue: usize,
    before: Option<usize>,
    cell: Option<usize>,
)
    requires queue { queue < length first.old }
    requires before { (b : ℕ) → before ≡ Some b → b < length next.old }
    ensures { IsLinked first.old next.old queue before cell first.new next.new }
{
    match before {
        Some(before) => next[before] = cell,
        None => first[queue] = cell,
    }
}

/// Makes the cell before the one that leaves a queue its last, where none is next.
fn end(last: &mut [Option<usize>], queue: usize, before: Option<usize>, next: Option<usize>)
    requires { queue < length last.old }
    ensures { IsEnded last.old queue before next last.new }
{
    if next.is_none() {
        last[queue] = before;
    }
}

/// The cell before one in its queue.
fn cell_before(
    cells: &[Option<usize>],
    first: &[Option<usize>],
    queue: usize,
    cell: usize,
) -> Option<usize>
    requires place { IsIn cells.now queue cell }
    requires queue { queue < length first.now }
    requires first { IsFirstFrom (IsIn cells.now queue) 0 (entry first.now queue) }
    ensures { IsLastBelow (IsIn cells.now queue) cell result }
{
    if first[queue] == Some(cell) {
        return None;
    }
    last_below(cells, queue, cell)
}

/// The last cell of a queue below a number.
fn last_below(cells: &[Option<usize>], queue: usize, high: usize) -> Option<usize>
    requires { high ≤ length cells.now }
    ensures { IsLastBelow (IsIn cells.now queue) high result }
{
    let mut below = high;
    while below > 0 {
        below -= 1;
        if cells[below] == Some(queue) {
            return Some(below);
        }
    }
    None
}

// Walks from item to item: a cursor stands at each item visited in turn, in the order of `visited`, so that a query is one loop. That a search by it
// gives the scan's answer: the laws of `Walk` in proofs/CursorLaws.antt. Where only whether a test holds of one is asked, `any_visited` is faster.
ghost use Rattle.std.specs.Prelude.{◌≡◌, false, ◌+◌, ◌-◌, ◌≤◌, ◌<◌, IfSome, length};
ghost use Rattle.index_pools.specs.Pool.{cells, own_at, cell_of, span};
ghost use Rattle.index.specs.Walk.{columns, rows, visited};
ghost use Rattle.index.specs.Cursors.{over, cursor_of, At, InRow, Stands, NextCursor};

use crate::{head_at, place_at};
use index_pools::{NONE, Rect};

// A place `t` in the chain of the cell of the key (i, j).
#[derive(Clone, Copy)]
pub struct Cursor {
    i: usize,
    j: usize,
    cell: usize,
    t: u32,
}

// The cursor of a walk that is over, as callers are given it.
const NOWHERE: Cursor = Cursor {
    i: 0,
    j: 0,
    cell: 0,
    t: NONE,
};

// Whether a walk is over.
#[tactic(auto, unfolding(crate::specs::Cursors::over))]
pub fn is_over(c: Cursor) -> bool
    ensures { result ≡ over c }
{
    c.t == NONE
}

// The item that the cursor is at.
pub fn own_at(pool: &[u32], c: Cursor) -> u32
    requires { At pool.now c }
    ensures { result ≡ own_at (length pool.now) pool.now c.t }
{
    place_at(pool, c.t as usize).0
}

// The first place under the columns of row j after column i, whose cell is `cell`.
fn later_columns(pool: &[u32], right: u32, i: usize, j: usize, cell: usize) -> Option<Cursor>
    requires { (4 ≤ length pool.now) × (cell ≡ cell_of (cells (length pool.now)) i j) }
    ensures rest { InRow pool.now right j (columns pool.now j (right - i) (i + 1)) (cursor_of result) }
    ensures place { IfSome result (λ c. over c ≡ false) }
{
    let m = index_pools::cells_of(pool.len());
    let limit = index_pools::capacity_of(pool.len());
    let last = right as usize;
    let mut i = i;
    let mut cell = cell;
    // Stays a `while`: a `for` over the columns counts beside i, and a walk takes a fifth more time, or half as much again.
    while i < last {
        i += 1;
        cell = index_pools::next_cell(m, cell);
        let t = head_at(pool, cell);
        if (t as usize) < limit {
            return Some(Cursor { i, j, cell, t });
        }
    }
    None
}

// The first place under the columns `left` to `right` of row j.
fn in_row(pool: &[u32], left: u32, right: u32, j: usize) -> Option<Cursor>
    requires { (4 ≤ length pool.now) × (j < 4294967296) }
    ensures rest { InRow pool.now right j (columns pool.now j (span left right) left) (cursor_of result) }
    ensures place { IfSome result (λ c. over c ≡ false) }
{
    if right < left {
        return None;
    }
    let n = pool.len();
    let i = left as usize;
    let cell = index_pools::cell_of(index_pools::cells_of(n), i, j);
    let t = head_at(pool, cell);
    if (t as usize) < index_pools::capacity_of(n) {
        return Some(Cursor { i, j, cell, t });
    }
    later_columns(pool, right, i, j, cell)
}

// The first place under the rows after row j.
fn later_rows(pool: &[u32], r: Rect, j: usize) -> Option<Cursor>
    requires { 4 ≤ length pool.now }
    ensures rest { Stands pool.now r (rows pool.now r (r.high - j) (j + 1)) (cursor_of result) }
    ensures place { IfSome result (λ c. over c ≡ false) }
{
    for k in j..r.high as usize {
        if let Some(c) = in_row(pool, r.left, r.right, k + 1) {
            return Some(c);
        }
    }
    None
}

// The first place under the rectangle's keys.
pub fn first(pool: &[u32], r: Rect) -> Cursor
    ensures { Stands pool.now r (visited pool.now r) result }
{
    if pool.len() < 4 || r.high < r.low {
        return NOWHERE;
    }
    let low = r.low as usize;
    in_row(pool, r.left, r.right, low)
        .or_else(|| later_rows(pool, r, low))
        .unwrap_or(NOWHERE)
}

// The place after the cursor's.
pub fn after(pool: &[u32], r: Rect, c: Cursor) -> Cursor
    requires { At pool.now c }
    ensures { NextCursor pool.now r c result }
{
    let (_, link) = place_at(pool, c.t as usize);
    if link < c.t {
        return Cursor { t: link, ..c };
    }
    later_columns(pool, r.right, c.i, c.j, c.cell)
        .or_else(|| later_rows(pool, r, c.j))
        .unwrap_or(NOWHERE)
}

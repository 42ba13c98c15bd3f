// Walks along a pool, so that the items whose key rectangle meets a query's are found without a scan. A search by a walk is proved to give the scan's
// answer: `visited_answers` in proofs/WalkLaws.antt.
#![tactic(auto)]

ghost use Rattle.std.specs.Prelude.{◌≡◌, ℕ, Bool, ◌≤◌, ◌<◌, max, length};
ghost use Rattle.index_pools.specs.Pool.{cells, capacity, own_at, link_at, head_at, chain, span, any_of, Indexed};
ghost use Rattle.index.specs.Walk.{columns, visited, Decides, AreMet};
ghost use Rattle.laws.specs.Loop.{any_up};

mod cursors;

pub use cursors::{Cursor, after, first, is_over, own_at};
use index_pools::Rect;

// The owner at a place, and the link from there.
fn place_at(pool: &[u32], t: usize) -> (u32, u32)
    requires { t < capacity (length pool.now) }
    ensures { (result.0 ≡ own_at (length pool.now) pool.now t) × (result.1 ≡ link_at (length pool.now) pool.now t) }
{
    let at = 2 + index_pools::cells_of(pool.len()) + 2 * t;
    (pool[at], pool[at + 1])
}

// The first place of a cell's chain.
fn head_at(pool: &[u32], cell: usize) -> u32
    requires { cell < cells (length pool.now) }
    ensures { result ≡ head_at pool.now cell }
{
    pool[2 + cell]
}

// Whether the test holds for an owner in the chain that begins at place t.
fn any_in_chain<F: Fn(usize) -> bool>(pool: &[u32], t: u32, test: &F) -> bool
    requires cells { 4 ≤ length pool.now }
    requires tested { (id : ℕ) → id < 4294967296 → F.pre test.now id }
    ensures { (tests : ℕ → Bool) → Decides (F.post test.now) 4294967296 tests → result ≡ any_of tests (chain (length pool.now) pool.now t) }
{
    let mut limit = index_pools::capacity_of(pool.len());
    let mut t = t as usize;
    // LIMITS.md, 5: a loop, and no `any` over `successors`.
    while t < limit {
        let (own, link) = place_at(pool, t);
        if test(own as usize) {
            return true;
        }
        limit = t;
        t = link as usize;
    }
    false
}

// Whether it holds for one under the columns `left` to `right` of row j.
fn any_in_row<F: Fn(usize) -> bool>(pool: &[u32], left: u32, right: u32, j: usize, test: &F) -> bool
    requires cells { (4 ≤ length pool.now) × (j < 4294967296) }
    requires tested { (id : ℕ) → id < 4294967296 → F.pre test.now id }
    ensures { (tests : ℕ → Bool) → Decides (F.post test.now) 4294967296 tests → result ≡ any_of tests (columns pool.now j (span left right) left) }
{
    let m = index_pools::cells_of(pool.len());
    let mut cell = index_pools::cell_of(m, left as usize, j);
    // Each turn goes on to the next cell without a division.
    for k in left as usize..right as usize + 1 {
        if any_in_chain(pool, head_at(pool, cell), test) {
            return true;
        }
        cell = index_pools::next_cell(m, cell);
    }
    false
}

// Whether the test holds for an item visited.
pub fn any_visited<F: Fn(usize) -> bool>(pool: &[u32], r: Rect, test: F) -> bool
    requires { (id : ℕ) → id < 4294967296 → F.pre test id }
    ensures { (tests : ℕ → Bool) → Decides (F.post test) 4294967296 tests → result ≡ any_of tests (visited pool.now r) }
{
    pool.len() >= 4
        && (r.low as usize..r.high as usize + 1).any(|j| any_in_row(
            pool, r.left, r.right, j, &test,
        ))
}

// Whether the test holds for one of the first `count` items, where each that it holds for has a key in r: a walk for those that are filed, and a scan of
// the others.
pub fn any_item<F: Fn(usize) -> bool>(pool: &[u32], r: Rect, count: usize, test: F) -> bool
    requires walked { (id : ℕ) → id < 4294967296 → F.pre test id }
    requires scanned { (id : ℕ) → id < count → F.pre test id }
    ensures { (tests : ℕ → Bool) (rects : ℕ → Rect) → Decides (F.post test) (max count 4294967296) tests → Indexed pool.now rects count
        → AreMet tests rects r → result ≡ any_up count tests }
{
    any_visited(pool, r, &test)
        || (index_pools::filed(pool) as usize..count).any(
            |id|
                requires { F.pre test id }
            { test(id) },
        )
}

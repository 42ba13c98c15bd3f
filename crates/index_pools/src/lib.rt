// Items (nodes, edges) filed under cells of keys in one lent list, the pool. The list is scratch: all that a caller needs of its contents is that each of
// the first items is in the chain of every cell of its rectangle, and that these are all items, unless the places have run out (`Indexed`); those that came
// after that are left to a scan.
// Functions of a list, here and in `index`: no fact goes with the list, since what is filed in it names the items'
// rectangles and their count (`Indexed`).
#![tactic(auto)]

ghost use Rattle.std.specs.Prelude.{◌≡◌, ℕ, ◌+◌, ◌*◌, ◌%◌, ◌≤◌, ◌<◌, min, leb, length};
ghost use Rattle.index_pools.specs.Pool.{cells, capacity, used, filed, cell_of, span, cleared_pool, push, file_row, key_count, takes, file, Indexed};
ghost use Rattle.index_pools.specs.Filing.{Gives};

// A rectangle of shifted keys; with `right` below `left` or `high` below `low` it is empty.
#[derive(Clone, Copy)]
pub struct Rect {
    pub left: u32,
    pub right: u32,
    pub low: u32,
    pub high: u32,
}

impl Rect {
    // How many columns it has.
    fn width(self) -> usize
        ensures { result ≡ span self.left self.right }
    {
        span(self.left, self.right)
    }

    // How many rows.
    fn height(self) -> usize
        ensures { result ≡ span self.low self.high }
    {
        span(self.low, self.high)
    }
}

// No place.
// A number, as the lent lists hold it.
pub const NONE: u32 = u32::MAX;

// As many places as 32 bits number beside `NONE`.
const MOST_PLACES: usize = 4294967294;

// As many items as it numbers.
const MOST_ITEMS: usize = 4294967295;

// How far apart rows of cells lie: far from any round fraction of 2^32, so that rows of a region seldom fall on each other, whatever the number of cells.
const STRIDE: usize = 2654435761;

// ---- the layout

pub fn cells_of(n: usize) -> usize
    ensures { result ≡ cells n }
{
    n / 4
}

pub fn capacity_of(n: usize) -> usize
    requires { 4 ≤ n }
    ensures { result ≡ capacity n }
{
    ((n - 2 - n / 4) / 2).min(MOST_PLACES)
}

// How many items are filed.
pub fn filed(pool: &[u32]) -> u32
    ensures { result ≡ filed pool.now }
{
    if pool.len() < 4 { 0 } else { pool[1] }
}

pub fn cell_of(m: usize, i: usize, j: usize) -> usize
    requires { (0 < m) × (i < 4294967296) × (j < 4294967296) }
    ensures { result ≡ cell_of m i j }
{
    (i + j * STRIDE) % m
}

// The cell of the next column.
pub fn next_cell(m: usize, cell: usize) -> usize
    requires { cell < m }
    ensures { result ≡ (cell + 1) % m }
{
    let next = cell + 1;
    if next == m { 0 } else { next }
}

// ---- filing

// How many numbers there are from a to b.
fn span(a: u32, b: u32) -> usize
    ensures { result ≡ span a b }
{
    if b < a { 0 } else { (b - a) as usize + 1 }
}

// Empties the pool, where it has a cell.
pub fn clear(pool: &mut [u32])
    ensures { pool.new ≡ cleared_pool pool.old }
{
    let n = pool.len();
    if n < 4 {
        return;
    }
    let m = n / 4;
    pool[0] = 0;
    pool[1] = 0;
    pool[2..2 + m].fill(NONE);
}

// Puts `own` at the head of a cell's chain.
fn push(pool: &mut [u32], cell: usize, own: u32)
    requires { (cell < cells (length pool.old)) × (used pool.old < capacity (length pool.old)) }
    ensures { pool.new ≡ push cell own pool.old }
{
    let used = pool[0];
    let at = 2 + cells_of(pool.len()) + 2 * (used as usize);
    let head = pool[2 + cell];
    pool[at] = own;
    pool[at + 1] = head;
    pool[2 + cell] = used;
    pool[0] = used + 1;
}

// Files `own` under the columns `left` to `right` of row j.
fn file_row(pool: &mut [u32], left: u32, right: u32, j: usize, own: u32)
    requires { (4 ≤ length pool.old) × (j < 4294967296) × (used pool.old + span left right ≤ capacity (length pool.old)) }
    ensures { pool.new ≡ file_row left right j own pool.old }
{
    let m = cells_of(pool.len());
    let w = span(left, right);
    let mut cell = cell_of(m, left as usize, j);
    // The cell is handed on, so that the next is got without a division.
    for k in 0..w {
        push(pool, cell, own);
        cell = next_cell(m, cell);
    }
}

// Whether w by h keys find as many places.
fn is_room(w: usize, h: usize, places: usize) -> bool
    ensures { result ≡ leb (w * h) places }
{
    w.checked_mul(h).is_some_and(|n| n <= places)
}

// Whether there are places for the keys of the rectangle.
fn has_room(pool: &[u32], r: Rect) -> bool
    requires { 4 ≤ length pool.now }
    ensures { result ≡ leb (used pool.now + key_count r) (capacity (length pool.now)) }
{
    let limit = capacity_of(pool.len());
    let u = pool[0] as usize;
    u <= limit && is_room(r.width(), r.height(), limit - u)
}

// Whether `own` is the next item, and there are places for the keys of its rectangle.
fn takes(pool: &[u32], r: Rect, own: u32) -> bool
    ensures { result ≡ takes r own pool.now }
{
    pool.len() >= 4 && filed(pool) == own && has_room(pool, r)
}

// Files `own` under every key of the rectangle, where the pool takes it.
pub fn file(pool: &mut [u32], r: Rect, own: u32)
    requires { own < 4294967295 }
    ensures { pool.new ≡ file r own pool.old }
{
    if !takes(pool, r, own) {
        return;
    }
    let h = r.height();
    let low = r.low as usize;
    for k in 0..h {
        file_row(pool, r.left, r.right, low + k, own);
    }
    pool[1] = own + 1;
}

// Files the items `from` to `to` - 1, where those before are filed: all that find places, up to the first that doesn't, and none that 32 bits can't
// number. `rect` gives the rectangle of an item.
pub fn file_items<F: Fn(u32) -> Rect>(pool: &mut [u32], from: usize, to: usize, rect: F)
    requires { (k : ℕ) → k < min to 4294967295 → F.pre rect k }
    ensures { (rects : ℕ → Rect) → Gives (F.post rect) (min to 4294967295) rects → from ≤ to → Indexed pool.old rects from
        → Indexed pool.new rects to }
{
    for k in from..to.min(MOST_ITEMS) {
        let own = k as u32;
        file(pool, rect(own), own);
    }
}

// The entry of the presentation order. Who stands too early is found by walks over the steps that quads lay, each filed under its own key in a pool of `index_pools`, and by a scan
// of the quads that came after the pool was full.
#![tactic(auto)]

ghost use Rattle.std.specs.Prelude.{◌≡◌, ◌*◌, ◌<◌, ◌≤◌};
ghost use Rattle.laws.specs.Loop.{any_up};
ghost use Rattle.index_pools.specs.Pool.{filed, Indexed};
ghost use Rattle.order.specs.Order.{too_early, first_early, order_answer};
ghost use Rattle.order_walks.specs.Steps.{laid_from, laid_to, step_key, step_rect, keeps_back, early_answer};

use front_lent_mesh::QuadIds;
use index_pools::Rect;
use order::OrderAnswer;
use order_checks::Presentation;
use outline::Refusal;

// ---- the steps laid

// Step s of those that a quad lays.
#[tactic(auto, unfolding(crate::specs::Steps::laid_from, crate::specs::Steps::laid_to))]
fn laid_step(q: QuadIds, s: usize) -> (u32, u32)
    requires { s < 3 }
    ensures { (result.0 ≡ laid_from q s) × (result.1 ≡ laid_to q s) }
{
    order_checks::laid_steps(q)[s]
}

// The one key (u, v).
fn step_key(u: u32, v: u32) -> Rect
    ensures { result ≡ step_key u v }
{
    Rect {
        left: u,
        right: u,
        low: v,
        high: v,
    }
}

// The key of item k: of a step v to u, (u, v).
#[tactic(auto, unfolding(crate::specs::Steps::step_rect))]
fn step_rect(quads: &[u32], k: usize) -> Rect
    requires { k < 4294967296 }
    ensures { result ≡ step_rect quads.now k }
{
    let q = front_lent_mesh::quad_at(quads, k / 3);
    let (from, to) = laid_step(q, k % 3);
    step_key(to, from)
}

// Files the steps that n quads lay: items 3i, 3i + 1, 3i + 2 are those of quad i.
fn file_steps(pool: &mut [u32], quads: &[u32], n: usize)
    requires { n ≤ 250000 }
    ensures { Indexed pool.new (step_rect quads.now) (3 * n) }
{
    index_pools::clear(pool);
    index_pools::file_items(pool, 0, 3 * n, |k| step_rect(quads, k as usize));
}

// ---- too early

// The quads that are tested, the steps that they lay, filed in a pool as far as it had room, and the order in which they are presented.
#[derive(Clone, Copy)]
struct Tested<'a> {
    quads: &'a [u32],
    n: usize,
    pool: &'a [u32],
    presentation: Presentation<'a>,
    ghost indexed: { ∥ Indexed pool.now (step_rect quads.now) (3 * n) ∥₁ },
}

impl<'a> Tested<'a> {
    // With a pool of any length.
    fn new(
        quads: &'a [u32],
        n: usize,
        presentation: Presentation<'a>,
        pool: &'a mut [u32],
    ) -> Tested<'a>
        requires { n ≤ 250000 }
        ensures { (result.quads.now ≡ quads.now) × (result.n ≡ n) × (result.presentation.order.now ≡ presentation.entry.order.now) }
    {
        file_steps(pool, quads, n);
        Tested {
            quads,
            n,
            pool,
            presentation,
        }
    }
}

impl Tested<'_> {
    // Whether item k is a step v to u, of a quad that keeps quad j from place p.
    fn keeps_back(&self, p: usize, j: usize, u: u32, v: u32, k: usize) -> bool
        requires { k < 4294967296 }
        ensures { result ≡ keeps_back self.now.quads.now self.now.presentation.order.now p j u v k }
    {
        let i = k / 3;
        let q = front_lent_mesh::quad_at(self.quads, i);
        laid_step(q, k % 3) == (v, u) && i < j && p < self.presentation.place_of(i)
    }

    // Whether some item that is filed is: a walk of the cell of the key (u, v).
    fn any_back(&self, p: usize, j: usize, u: u32, v: u32) -> bool
        ensures { result
            ≡ any_up (filed self.now.pool.now) (keeps_back self.now.quads.now self.now.presentation.order.now p j u v) }
    {
        let r = step_key(u, v);
        index::any_visited(self.pool, r, |k| self.keeps_back(p, j, u, v, k))
    }

    // Whether the quad at p stands too early: a walk for each of its steps a to b, b to d and c to a, and then a scan from the first quad that has a step
    // which isn't filed.
    fn is_early(&self, p: usize) -> bool
        ensures { result ≡ too_early self.now.quads.now self.now.n self.now.presentation.order.now p }
    {
        let j = front_lent_mesh::entry_at(self.presentation.order, p) as usize;
        let q = front_lent_mesh::quad_at(self.quads, j);
        let from = index_pools::filed(self.pool) as usize / 3;
        self.any_back(p, j, q.a, q.b)
            || self.any_back(p, j, q.b, q.d)
            || self.any_back(p, j, q.c, q.a)
            || self.presentation.early_from(self.quads, from, self.n, p)
    }

    // The first place where a quad stands too early.
    fn first_early(&self) -> Option<usize>
        ensures { early_answer result ≡ first_early self.now.quads.now self.now.n self.now.presentation.order.now }
    {
        (0..self.presentation.order.len()).find(|&p| self.is_early(p))
    }
}

// ---- the answer

// Whether the quads may be tested in this order: each of them once, and after every quad that laid a front edge which it used up. `places` and `pool`
// are scratch of any length: what they hold doesn't change the answer. A refusal may write them too: 21 `places` alone, and 22 both.
#[unsafe(no_mangle)]
pub extern "C" fn sitjorbe_order(
    quad_count: usize,
    quads: &[u32],
    order: &[u32],
    places: &mut [usize],
    pool: &mut [u32],
) -> OrderAnswer
    ensures answer { result ≡ order_answer quad_count quads.now order.now }
    ensures spared { result.refusal ≡ 21 → pool.new ≡ pool.old }
{
    let n = front_lent_mesh::quad_count(quad_count, quads);
    let presentation = Presentation::new(order, places);
    if !presentation.names_each_once(n) {
        return OrderAnswer {
            refusal: u32::from(Refusal::NotEachOnce),
            ..OrderAnswer::default()
        };
    }
    match Tested::new(quads, n, presentation, pool).first_early() {
        Some(place) => OrderAnswer {
            refusal: u32::from(Refusal::TooEarly),
            place,
        },
        None => OrderAnswer::default(),
    }
}

// Presentation order: who comes after whom, and whether a list names every quad of a lent mesh once. The places of a list's entries are kept in lent scratch.
// `order_walks` has the entry: it finds by walks who stands too early, and by `early_from` where steps aren't filed.
#![tactic(auto)]

ghost use Rattle.std.specs.Prelude.{◌≡◌, ◌<◌, [], ◌∷◌, length, get_or, set};
ghost use Rattle.laws.specs.Loop.{Unfound};
ghost use Rattle.order.specs.Order.{lays, lays_for, needs, first_place, is_wrong, names_each_once, waits_for, too_early};
ghost use Rattle.order_checks.specs.Places.{FirstPlaces};

use front_lent_mesh::QuadIds;

// ---- who comes after whom

// The steps that q lays: all but its a to b.
pub fn laid_steps(q: QuadIds) -> [(u32, u32); 3]
    ensures { result ≡ (q.b, q.d) ∷ (q.d, q.c) ∷ (q.c, q.a) ∷ [] }
{
    [(q.b, q.d), (q.d, q.c), (q.c, q.a)]
}

// Whether p lays a step v to u.
#[tactic(auto, unfolding(order::specs::Order::lays))]
fn lays(p: QuadIds, u: u32, v: u32) -> bool
    ensures { result ≡ lays p u v }
{
    laid_steps(p).contains(&(v, u))
}

// Whether it has one where q has the step u to v, and that isn't q's d to c.
#[tactic(auto, unfolding(order::specs::Order::lays_for))]
fn lays_for(p: QuadIds, q: QuadIds) -> bool
    ensures { result ≡ lays_for p q }
{
    lays(p, q.a, q.b) || lays(p, q.b, q.d) || lays(p, q.c, q.a)
}

// Whether quad j may come only after quad i.
#[tactic(auto, unfolding(order::specs::Order::needs))]
fn needs(quads: &[u32], j: usize, i: usize) -> bool
    requires { j < 4294967296 }
    ensures { result ≡ needs quads.now j i }
{
    i < j
        && lays_for(
            front_lent_mesh::quad_at(quads, i),
            front_lent_mesh::quad_at(quads, j),
        )
}

// ---- the list's places

// A list of quads, as it is lent, and the first place there of each id that `places` has a place for.
#[derive(Clone, Copy)]
pub struct Presentation<'a> {
    pub order: &'a [u32],
    pub places: &'a [usize],
    ghost first: { FirstPlaces places.now order.now },
}

// The first place of i; the list's length where it has none.
// A number, as lent scratch holds it: who has no place comes after every place.
fn first_place(order: &[u32], i: usize) -> usize
    ensures { result ≡ first_place order.now i }
{
    order
        .iter()
        .position(|&x| x as usize == i)
        .unwrap_or(order.len())
}

// Place i set to x; where the list hasn't that place, nothing is.
fn set_place(places: &mut [usize], i: usize, x: usize)
    ensures { places.new ≡ set places.old i x }
{
    // LIMITS.md, 1: a test and a write, and no `get_mut`.
    if i < places.len() {
        places[i] = x;
    }
}

// The first place of each i that `places` has a place for: the last entry goes first, so that the first place stays.
fn fill_places(order: &[u32], places: &mut [usize])
    ensures { FirstPlaces places.new order.now }
{
    places.fill(order.len());
    for (p, &x) in order.iter().enumerate().rev() {
        set_place(places, x as usize, p);
    }
}

impl<'a> Presentation<'a> {
    // Of a list, with scratch of any length.
    pub fn new(order: &'a [u32], places: &'a mut [usize]) -> Presentation<'a>
        ensures { result.order.now ≡ order.now }
    {
        fill_places(order, places);
        Presentation { order, places }
    }
}

impl Presentation<'_> {
    // The first place of i, read where it is kept and searched elsewhere.
    pub fn place_of(&self, i: usize) -> usize
        ensures { result ≡ first_place self.now.order.now i }
    {
        match self.places.get(i) {
            Some(&place) => place,
            None => first_place(self.order, i),
        }
    }

    // Whether the entry at p is unknown or repeated.
    fn is_wrong(&self, n: usize, p: usize) -> bool
        ensures { result ≡ is_wrong n self.now.order.now p }
    {
        let x = front_lent_mesh::entry_at(self.order, p) as usize;
        n <= x || self.place_of(x) != p
    }

    // Whether none of n quads is absent, repeated or unknown.
    pub fn names_each_once(&self, n: usize) -> bool
        ensures { result ≡ names_each_once n self.now.order.now }
    {
        let length = self.order.len();
        !(0..length).any(|p| self.is_wrong(n, p)) && !(0..n).any(|i| self.place_of(i) == length)
    }

    // Whether quad i keeps quad j from place p.
    fn waits_for(&self, quads: &[u32], p: usize, j: usize, i: usize) -> bool
        requires { j < 4294967296 }
        ensures { result ≡ waits_for quads.now self.now.order.now p j i }
    {
        needs(quads, j, i) && p < self.place_of(i)
    }

    // Whether the quad at p stands too early: a scan of the quads from `from` on, where none before keeps it from p.
    pub fn early_from(&self, quads: &[u32], from: usize, n: usize, p: usize) -> bool
        requires { Unfound (waits_for quads.now self.now.order.now p (get_or self.now.order.now p 0)) from n }
        ensures { result ≡ too_early quads.now n self.now.order.now p }
    {
        let j = front_lent_mesh::entry_at(self.order, p) as usize;
        (from..n).any(|i| self.waits_for(quads, p, j, i))
    }
}

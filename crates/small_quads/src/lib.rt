// Every small quad: the fours of points of a 4 by 4 lattice that `convex_ccw` accepts at 20 degrees, worked out in integers.
#![tactic(auto)]

ghost use Rattle.std.specs.Prelude.{◌≡◌, cond, ◌+◌, ◌-◌, ◌*◌, ◌/◌, ◌%◌, ◌<◌, ◌≤◌, length};
ghost use Rattle.std.proofs.lemmas.List.Edits.{sets};
ghost use Rattle.small_quads_lattice.specs.Fours.{corner_turns, above_third, points_of, fours, fours_answer, small_quads};
ghost use Rattle.small_quads_lattice.specs.Theorem.{EverySmallQuad};
ghost use Rattle.small_quads.specs.Integers.{step_squared, left_turn};
ghost use Rattle.small_quads.specs.ListLaws.{FourFits};

use outline::Refusal;

// `refusal` is 26 where the lent list is too short, 0 otherwise; `count` is how many fours are listed.
#[repr(C)]
#[derive(Clone, Copy, Default)]
pub struct SmallQuadsAnswer {
    pub refusal: u32,
    pub count: usize,
}

// The fours of 16 points.
const FOURS: u32 = 65_536;

// ---- a corner

// The step (x - 3, y - 3) of a lattice of 4 by 4 points.
#[derive(Clone, Copy)]
struct Step {
    x: u32,
    y: u32,
}

impl Step {
    // From the point p to the point q.
    fn between(p: u32, q: u32) -> Step
        requires { (p < 16) × (q < 16) }
        ensures { (result.x ≡ q % 4 + 3 - p % 4) × (result.y ≡ q / 4 + 3 - p / 4) }
    {
        Step {
            x: q % 4 + 3 - p % 4,
            y: q / 4 + 3 - p / 4,
        }
    }

    // Its squared length.
    fn squared(self) -> u32
        requires { (self.x ≤ 6) × (self.y ≤ 6) }
        ensures { (result ≡ step_squared self.x self.y) × (result ≤ 72) }
    {
        let a = self.x.abs_diff(3);
        let b = self.y.abs_diff(3);
        a * a + b * b
    }

    // Whether it and then the step `next` turn left with a sine above 1/3.
    fn turns_left(self, next: Step) -> bool
        requires { (self.x ≤ 6) × (self.y ≤ 6) × (next.x ≤ 6) × (next.y ≤ 6) }
        ensures { result ≡ left_turn self.x self.y next.x next.y }
    {
        let plus = self.x * next.y + 3 * self.y + 3 * next.x;
        let minus = self.y * next.x + 3 * self.x + 3 * next.y;
        if plus <= minus {
            return false;
        }
        let p = plus - minus;
        self.squared() * next.squared() < 9 * (p * p)
    }
}

// The same of the way from p to q to r, points of the lattice.
#[tactic(auto, using(crate::proofs::Integers::corner_law))]
fn corner_turns(p: u32, q: u32, r: u32) -> bool
    requires { (p < 16) × (q < 16) × (r < 16) }
    ensures { result ≡ corner_turns p q r }
{
    Step::between(p, q).turns_left(Step::between(q, r))
}

// ---- a four

// The points a, b, d and c of the four k.
fn points_of(k: u32) -> [u32; 4]
    ensures { result ≡ points_of k }
{
    [k / 4096, k / 256 % 16, k / 16 % 16, k % 16]
}

// Whether the four k turns so at all four corners.
#[tactic(auto, unfolding(small_quads_lattice::specs::Fours::above_third))]
fn is_small_quad(k: u32) -> bool
    requires { k < 65536 }
    ensures { result ≡ above_third k }
{
    let [a, b, d, c] = points_of(k);
    corner_turns(c, a, b) && corner_turns(a, b, d) && corner_turns(b, d, c) && corner_turns(d, c, a)
}

// ---- the list

// How many fours there are.
fn count_quads() -> usize
    ensures { (length (fours above_third) ≡ 4 * result) × (result ≤ 65536) }
{
    (0..FOURS).filter(|&k| is_small_quad(k)).count()
}

// The four k at the places from n on.
// LIMITS.md, 1: a place is handed on, here and below.
fn write_four(list: &mut [u32], n: usize, k: u32)
    requires { n + 4 ≤ length list.old }
    ensures { list.new ≡ sets list.old n (points_of k) }
{
    list[n..n + 4].copy_from_slice(&points_of(k));
}

// The four k at the places from n on, if it is one of the list; the place after it.
fn list_four(list: &mut [u32], n: usize, k: u32) -> usize
    requires { FourFits list.old n k }
    ensures { (list.new ≡ cond (above_third k) (sets list.old n (points_of k)) list.old) × (result ≡ cond (above_third k) (n + 4) n) }
{
    if is_small_quad(k) {
        write_four(list, n, k);
        return n + 4;
    }
    n
}

fn list_quads(list: &mut [u32])
    requires { length (fours above_third) ≤ length list.old }
    ensures { list.new ≡ sets list.old 0 (fours above_third) }
{
    let mut n: usize = 0;
    for k in 0..FOURS {
        n = list_four(list, n, k);
    }
}

// Every small quad, on the first places of the lent list: four numbers a four, in dictionary order.
#[unsafe(no_mangle)]
pub extern "C" fn sitjorbe_small_quads(fours: &mut [u32]) -> SmallQuadsAnswer
    ensures listed { fours_answer result.refusal result.count fours.new ≡ small_quads fours.old }
    ensures every { EverySmallQuad }
{
    let count = count_quads();
    if fours.len() < 4 * count {
        return SmallQuadsAnswer {
            refusal: u32::from(Refusal::FoursNeedSpace),
            ..SmallQuadsAnswer::default()
        };
    }
    list_quads(fours);
    SmallQuadsAnswer { refusal: 0, count }
}

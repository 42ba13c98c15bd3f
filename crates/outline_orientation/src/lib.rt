// On which side of the line from a to b the point c lies, exactly, for coordinates within 1,000 either way and at any exponent.
// The cross product of b - a and c - a is ax·by − ay·bx + bx·cy − by·cx + cx·ay − cy·ax: six products of two significands, each added at its
// place to one of two long sums, that of what is added and that of what is taken off. Then the sums are compared.
// A sum is a list of limbs of weight 2^28 each, which hold up to 62 bits, so that nothing is carried before the end.
#![tactic(auto)]

ghost use Rattle.std.specs.Prelude.{◌≡◌, ◌+◌, ◌*◌, ◌^◌, ◌<◌, length, get_or};
ghost use Rattle.exact.specs.Units.{Within, signed};
ghost use Rattle.outline.specs.Accepted.{PointWithin};
ghost use Rattle.outline_orientation.specs.Limbs.{B, value, Small, order, order_number};
ghost use Rattle.outline_orientation.specs.Sums.{Grown, DifferenceGrown, Digital, three, amount, crossed, IsDigits, IsCoordinates};
ghost use Rattle.outline_orientation.specs.Orient.{in_units, orient, side_number};

use outline::Point;
use std::cmp::Ordering;

// So many bits from one limb to the next.
const LIMB_BITS: u64 = 28;

const LIMB: u64 = 1 << LIMB_BITS;

// So many limbs hold a sum.
const LIMBS: usize = 77;

// A coordinate: its sign, and its size as d0 + d1·2^28 + d2·2^56, moved up by `place` limbs, of the smallest f64 above 0.
#[derive(Clone, Copy)]
pub struct Digits {
    pub d0: u64,
    pub d1: u64,
    pub d2: u64,
    pub place: usize,
    pub negative: bool,
}

// A point by its coordinates' digits.
#[derive(Clone, Copy)]
pub struct Coordinates {
    pub x: Digits,
    pub y: Digits,
}

// The digits of x.
fn digits_of(x: f64) -> Digits
    requires { Within 1000 x }
    ensures { IsDigits x result }
{
    let p = numbers::parts_of(x);
    let k = p.exponent;
    let low = (p.significand % LIMB) << (k % LIMB_BITS);
    let high = (p.significand / LIMB) << (k % LIMB_BITS);
    let t = low / LIMB + high;
    Digits {
        d0: low % LIMB,
        d1: t % LIMB,
        d2: t / LIMB,
        place: (k / LIMB_BITS) as usize,
        negative: p.negative,
    }
}

fn coordinates_of(a: Point) -> Coordinates
    requires { PointWithin 1000 1000 a }
    ensures { IsCoordinates a result }
{
    Coordinates {
        x: digits_of(a.x),
        y: digits_of(a.y),
    }
}

// Limb i grows by d.
fn add_at(acc: &mut [u64], i: usize, d: u64)
    requires { (i < length acc.old) × (get_or acc.old i 0 + d < 18446744073709551616) }
    ensures { Grown acc.old acc.new (d * B ^ i) d }
{
    acc[i] += d;
}

// The product of a digit and y's digits is added.
// Three calls, here and in `add_product`: a loop over three digits would need the bounds that each turn leaves as its
// invariant.
fn add_row(acc: &mut [u64], at: usize, d: u64, y: Digits)
    requires { (at + 2 < length acc.old) × (d < B) × Digital y × Small (60 * (B * B)) acc.old }
    ensures { Grown acc.old acc.new (d * three y * B ^ at) (3 * (B * B)) }
{
    add_at(acc, at, d * y.d0);
    add_at(acc, at + 1, d * y.d1);
    add_at(acc, at + 2, d * y.d2);
}

// The product of the sizes of x and y is added.
fn add_product(acc: &mut [u64], x: Digits, y: Digits)
    requires { (length acc.old ≡ 77) × Digital x × Digital y × Small (45 * (B * B)) acc.old }
    ensures { Grown acc.old acc.new (amount x * amount y) (9 * (B * B)) }
{
    let at = x.place + y.place;
    add_row(acc, at, x.d0, y);
    add_row(acc, at + 1, x.d1, y);
    add_row(acc, at + 2, x.d2, y);
}

// Two sums: of what is added, and of what is taken off.
#[derive(Drop)]
struct Difference {
    plus: [u64; LIMBS],
    minus: [u64; LIMBS],
}

impl Difference {
    // The product of the sizes of x and y is added or taken off.
    fn add_signed(&mut self, x: Digits, y: Digits, negative: bool)
        requires { Digital x × Digital y × Small (45 * (B * B)) self.old.plus × Small (45 * (B * B)) self.old.minus }
        ensures { DifferenceGrown self.old.plus self.old.minus self.new.plus self.new.minus (signed negative (amount x * amount y)) (9 * (B * B)) }
    {
        if negative {
            add_product(&mut self.minus, x, y);
        } else {
            add_product(&mut self.plus, x, y);
        }
    }

    // p.x·q.y − p.y·q.x is added.
    fn add_cross(&mut self, p: Coordinates, q: Coordinates)
        requires { Digital p.x × Digital p.y × Digital q.x × Digital q.y × Small (36 * (B * B)) self.old.plus × Small (36 * (B * B)) self.old.minus }
        ensures { DifferenceGrown self.old.plus self.old.minus self.new.plus self.new.minus (crossed p q) (18 * (B * B)) }
    {
        self.add_signed(p.x, q.y, p.x.negative != q.y.negative);
        self.add_signed(p.y, q.x, p.y.negative == q.x.negative);
    }

    // How the difference compares with 0. From the lowest limb up, what is carried goes to the next, and a higher digit decides before a lower one.
    fn sign(&self) -> Ordering
        requires { Small (64 * (B * B)) self.now.plus × Small (64 * (B * B)) self.now.minus }
        ensures { order_number result ≡ order (value self.now.plus) (value self.now.minus) }
    {
        let mut below = Ordering::Equal;
        let mut carried_p: u64 = 0;
        let mut carried_n: u64 = 0;
        for (&p, &n) in self.plus.iter().zip(&self.minus) {
            let p = p + carried_p;
            let n = n + carried_n;
            below = (p % LIMB).cmp(&(n % LIMB)).then(below);
            carried_p = p / LIMB;
            carried_n = n / LIMB;
        }
        carried_p.cmp(&carried_n).then(below)
    }
}

// How the area of the triangle a, b, c compares with 0: `Equal` where they lie on one line, `Greater` where c lies to the left of the way from a to b,
// `Less` where it lies to the right.
pub fn side(a: Point, b: Point, c: Point) -> Ordering
    requires { PointWithin 1000 1000 a × PointWithin 1000 1000 b × PointWithin 1000 1000 c }
    ensures { order_number result ≡ side_number (orient (in_units a) (in_units b) (in_units c)) }
{
    let p = coordinates_of(a);
    let q = coordinates_of(b);
    let r = coordinates_of(c);
    let mut area = Difference {
        plus: [0; LIMBS],
        minus: [0; LIMBS],
    };
    area.add_cross(p, q);
    area.add_cross(q, r);
    area.add_cross(r, p);
    area.sign()
}

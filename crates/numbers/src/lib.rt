// Roots, roundings, comparisons and bounds of f64s, each equal to a definition of specs/ on every input (`to_f64`: on every count below 2^32).
#![tactic(auto)]

ghost use Rattle.std.specs.Prelude.{◌≡◌, ◌+◌, ◌*◌, ◌/◌, ◌%◌, ◌^◌, ◌<◌, ◌≤◌, T};
ghost use Rattle.numbers.specs.Root.{NearRoot, RootBits, root_units, root};
ghost use Rattle.numbers.specs.Float.{to_float, is_finite, abs_f, min_f, max_f, clamp_f};
ghost use Rattle.numbers.specs.Whole.{floor_int, floor_quotient, ceil_count};
ghost use Rattle.std.specs.Float.{two_to, minus_two_to, ◌<ᶠ◌};
ghost use Rattle.std.specs.Float.Ieee.{le};
ghost use Rattle.numbers.specs.TakenApart.{IsParts};

use std::num;

// The whole number nearest to the root of s * 2^52, digit by digit.
fn root_by_digits(s: u64) -> u64
    requires { (2 ^ 52 ≤ s) × (s < 2 ^ 54) }
    ensures { NearRoot (s * 2 ^ 52) result }
{
    let mut root: u64 = 0;
    let mut rem: u64 = 0;
    let mut rest: u64 = s;
    for turn in 0..53u64 {
        // the two leading binary digits of `rest` come down
        rem = rem * 4 + rest / 4503599627370496;
        rest = rest % 4503599627370496 * 4;
        let t = root * 4 + 1;
        if t <= rem {
            rem = rem - t;
            root = root * 2 + 1;
        } else {
            root = root * 2;
        }
    }
    if root < rem { root + 1 } else { root }
}

// The whole number nearest to the root of s * 2^52. Where that is q or beside q, q's square shows it; otherwise the digits are worked out.
fn nearest_root(s: u64, q: u64) -> u64
    requires { (2 ^ 52 ≤ s) × (s < 2 ^ 54) × (q < 2 ^ 53) }
    ensures { NearRoot (s * 2 ^ 52) result }
{
    let a = q / 134217728;
    let b = q % 134217728;
    let m = a * b;
    // q * q is h * 2^52 + l
    let h = a * a * 4 + m / 16777216;
    let l = m % 16777216 * 268435456 + b * b;
    if h <= s + 16 {
        let u = s + 16 - h;
        if u <= 32 {
            // s * 2^52 - q * q, moved up by 3 * 2^56
            let e = u * 4503599627370496 + 144115188075855872 - l;
            if e <= 216172782113783808 + 3 * q + 2 {
                if 216172782113783810 < e + 3 * q {
                    // two selections and no jump, since nothing foretells them
                    let up: u64 = if 216172782113783808 + q < e { 1 } else { 0 };
                    let down: u64 = if e + q <= 216172782113783808 { 1 } else { 0 };
                    return q + up - down;
                }
            }
        }
    }
    root_by_digits(s)
}

// The bits of the root of sig * 2^52 * 2^p squares of the smallest f64 above 0, rounded, from a guess q at its digits.
fn root_bits(sig: u64, p: u64, q: u64) -> u64
    requires { (2 ^ 52 ≤ sig) × (sig < 2 ^ 53) × (p ≤ 3067) × (q < 2 ^ 53) }
    ensures { RootBits (sig * 2 ^ 52 * 2 ^ p) result }
{
    let s = if p % 2 == 0 { sig } else { sig * 2 };
    let r = nearest_root(s, q);
    p / 2 * 4503599627370496 + r
}

// A number near the root of 1 + e, for a small e: the series up to the seventh power.
fn guess_near_one(e: f64) -> f64 {
    let u = 0.5 * e;
    let u2 = u * u;
    let low = u + u2 * (0.5 * u - 0.5);
    let high = 0.875 * u - 0.625 + u2 * (2.0625 * u - 1.3125);
    1.0 + (low + u2 * u2 * high)
}

// A number near the root of x, whose bits are b. Near 1, where the sweeps' roots mostly are, it is that of a series; elsewhere two of Newton's
// steps for 1 / x.sqrt(), then one of the third order. Nothing rests on how near it is.
fn guess_root(x: f64, b: u64) -> f64
    requires { b < 2 ^ 63 }
{
    let e = x - 1.0;
    if -0.0078125 <= e && e <= 0.0078125 {
        return guess_near_one(e);
    }
    let h = x * 0.5;
    let y0 = f64::from_bits(0x5fe6_ed21_02dc_bfda - b / 2);
    let y1 = 1.500878955116334 * y0 - h * y0 * (y0 * y0);
    let y2 = 1.5000005796762577 * y1 - h * y1 * (y1 * y1);
    let z = x * y2;
    let r = x - z * z;
    z + y2 * r * (0.5 + 0.375 * y2 * y2 * r)
}

// The root of x, a normal number above 0, whose bits are b.
fn root_of_normal(x: f64, b: u64) -> f64
    requires { (2 ^ 52 ≤ b) × (b < 0x7ff0_0000_0000_0000) }
    ensures { result ≡ root_units ((b % 2 ^ 52 + 2 ^ 52) * 2 ^ 52 * 2 ^ (b / 2 ^ 52 + 1021)) }
{
    let w = guess_root(x, b);
    let v: u64 = if w > 0.0 { f64::to_bits(w) } else { 0 };
    let k = root_bits(
        b % 4503599627370496 + 4503599627370496,
        b / 4503599627370496 + 1021,
        v % 4503599627370496 + 4503599627370496,
    );
    // w is at hand before k is, and mostly it is the root
    if v == k {
        return w;
    }
    f64::from_bits(k)
}

// The root of x with no root instruction: a guess in floats, checked in whole numbers.
// The square root in whole numbers alone, with its proof. `sqrt_f64` is what is called.
pub fn root_in_whole_numbers(x: f64) -> f64
    ensures { result ≡ root x }
{
    if x != x {
        return x;
    }
    let b = f64::to_bits(x);
    if b < 0x10_0000_0000_0000 {
        if b == 0 {
            return x;
        }
        let sh = u64::leading_zeros(b) as u64 - 11;
        return f64::from_bits(root_bits(b << sh, 1022 - sh, 0));
    }
    if b < 0x7ff0_0000_0000_0000 {
        return root_of_normal(x, b);
    }
    if b == 0x7ff0_0000_0000_0000 {
        return x;
    }
    if b == 0x8000_0000_0000_0000 {
        return x;
    }
    0.0 / 0.0
}

// `x.sqrt()`, as IEEE 754 has it.
// A function beside the method, and so are `is_finite_f64` and `abs_f64`: each clause is by our definition.
#[tactic(auto, using(crate::proofs::LibraryRoot::root_library))]
#[unsafe(no_mangle)]
pub extern "C" fn sqrt_f64(x: f64) -> f64
    ensures { result ≡ root x }
{
    x.sqrt()
}

// `q.floor() as i64` for a size below 2^50: the sum with 3 * 2^51 is rounded to a whole number, which its bits end with.
fn floor_of_small(q: f64) -> i64
    requires { (minus_two_to 50 <ᶠ q) × (q <ᶠ two_to 50) }
    ensures { result ≡ floor_int q }
{
    let sum = q + 6755399441055744.0;
    let near = f64::to_bits(sum);
    let bits = if q < sum - 6755399441055744.0 {
        near - 1
    } else {
        near
    };
    bits as i64 - 0x4338_0000_0000_0000
}

// `(x / b).floor() as i64`. Of a quotient above 0 the cast alone cuts the fraction off, and from a size of 2^52 on there is none.
#[unsafe(no_mangle)]
pub extern "C" fn floor_quotient(x: f64, b: f64) -> i64
    ensures { result ≡ floor_quotient x b }
{
    let q = x / b;
    if -1125899906842624.0 < q && q < 1125899906842624.0 {
        return floor_of_small(q);
    }
    if 0.0 < q || q < -4503599627370496.0 {
        return num::saturating_f64_to_i64(q);
    }
    num::saturating_f64_to_i64(q.floor())
}

// `x.ceil() as usize`. Of a size below 2^50 it is minus the floor of -x, and from 2^52 on each number is whole.
#[unsafe(no_mangle)]
pub extern "C" fn ceil_count(x: f64) -> u64
    ensures { result ≡ ceil_count x }
{
    if 0.0 < x {
        if x < 1125899906842624.0 {
            return (-floor_of_small(-x)) as u64;
        }
        if 4503599627370496.0 < x {
            return num::saturating_f64_to_u64(x);
        }
        return num::saturating_f64_to_u64(x.ceil());
    }
    0
}

// A finite f64: its sign, and its size as significand * 2^exponent times the smallest f64 above 0.
#[derive(Clone, Copy)]
pub struct Parts {
    pub negative: bool,
    pub significand: u64,
    pub exponent: u64,
}

pub fn parts_of(x: f64) -> Parts
    requires { T (is_finite x) }
    ensures { IsParts x result }
{
    let b = f64::to_bits(x);
    let negative = 0x8000_0000_0000_0000 <= b;
    let m = b % 0x8000_0000_0000_0000;
    if m < 4503599627370496 {
        return Parts {
            negative,
            significand: m,
            exponent: 0,
        };
    }
    Parts {
        negative,
        significand: m % 4503599627370496 + 4503599627370496,
        exponent: m / 4503599627370496 - 1,
    }
}

// `n as f64`
// The library's `nearest_usize_to_f64` takes any n by two casts, a product and a sum; of an n so small one cast is
// the same.
pub fn to_f64(n: usize) -> f64
    requires { n < 4294967296 }
    ensures { result ≡ to_float n }
{
    n as u32 as f64
}

// `x.min(y)`; of equal zeros, which Rust leaves open, x.
// Of two equal zeros the library's `min` may give either.
#[tactic(auto, unfolding(crate::specs::Float::min_f))]
#[unsafe(no_mangle)]
pub extern "C" fn min_f64(x: f64, y: f64) -> f64
    ensures { result ≡ min_f x y }
{
    if x.is_nan() || y < x { y } else { x }
}

// `x.max(y)`; of equal zeros, which Rust leaves open, x.
// Of two equal zeros the library's `max` may give either.
#[tactic(auto, unfolding(crate::specs::Float::max_f))]
#[unsafe(no_mangle)]
pub extern "C" fn max_f64(x: f64, y: f64) -> f64
    ensures { result ≡ max_f x y }
{
    if x.is_nan() || x < y { y } else { x }
}

// `x.clamp(lo, hi)`; where Rust panics, hi if lo > hi and x is a number, and a bound that is a NaN bounds nothing.
// The library's `clamp` requires lo <= hi.
#[tactic(auto, unfolding(crate::specs::Float::clamp_f))]
#[unsafe(no_mangle)]
pub extern "C" fn clamp_f64(x: f64, lo: f64, hi: f64) -> f64
    ensures { result ≡ clamp_f x lo hi }
{
    let raised = if x < lo { lo } else { x };
    if hi < raised { hi } else { raised }
}

// `x.is_finite()`
#[unsafe(no_mangle)]
pub extern "C" fn is_finite_f64(x: f64) -> bool
    ensures { result ≡ is_finite x }
{
    x.is_finite()
}

// `x.abs()`
#[unsafe(no_mangle)]
pub extern "C" fn abs_f64(x: f64) -> f64
    ensures { result ≡ abs_f x }
{
    x.abs()
}

// `x.abs() <= m`, by two comparisons: `abs` is three and a selection.
pub fn abs_at_most(x: f64, m: f64) -> bool
    ensures { result ≡ le (abs_f x) m }
{
    -m <= x && x <= m
}

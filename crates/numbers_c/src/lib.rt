// The number routines for a C caller, as the benchmark of them is: each export calls the function of its name, and states that function's clauses again.
// C links these names.
#![tactic(auto)]

ghost use Rattle.std.specs.Prelude.{◌≡◌};
ghost use Rattle.numbers.specs.Root.{root};
ghost use Rattle.numbers.specs.Float.{is_finite, abs_f, min_f, max_f, clamp_f};
ghost use Rattle.numbers.specs.Whole.{floor_quotient, ceil_count};

// `x.sqrt()`, as IEEE 754 has it. A NaN comes back with its bits, and below zero the answer's are those of 0.0 / 0.0.
#[unsafe(no_mangle)]
pub extern "C" fn sqrt_f64(x: f64) -> f64
    ensures { result ≡ root x }
{
    if x.is_nan() {
        return x;
    }
    if x < 0.0 {
        return 0.0 / 0.0;
    }
    numbers::sqrt_f64(x)
}

// `(x / b).floor() as i64`
#[unsafe(no_mangle)]
pub extern "C" fn floor_quotient(x: f64, b: f64) -> i64
    ensures { result ≡ floor_quotient x b }
{
    numbers::floor_quotient(x, b)
}

// `x.ceil() as usize`
#[unsafe(no_mangle)]
pub extern "C" fn ceil_count(x: f64) -> u64
    ensures { result ≡ ceil_count x }
{
    numbers::ceil_count(x)
}

// `x.min(y)`; of equal zeros, which Rust leaves open, x.
#[unsafe(no_mangle)]
pub extern "C" fn min_f64(x: f64, y: f64) -> f64
    ensures { result ≡ min_f x y }
{
    numbers::min_f64(x, y)
}

// `x.max(y)`; of equal zeros, which Rust leaves open, x.
#[unsafe(no_mangle)]
pub extern "C" fn max_f64(x: f64, y: f64) -> f64
    ensures { result ≡ max_f x y }
{
    numbers::max_f64(x, y)
}

// `x.clamp(lo, hi)`; where Rust panics, hi if lo > hi and x is a number, and a bound that is a NaN bounds nothing.
#[unsafe(no_mangle)]
pub extern "C" fn clamp_f64(x: f64, lo: f64, hi: f64) -> f64
    ensures { result ≡ clamp_f x lo hi }
{
    numbers::clamp_f64(x, lo, hi)
}

// `x.is_finite()`
#[unsafe(no_mangle)]
pub extern "C" fn is_finite_f64(x: f64) -> bool
    ensures { result ≡ is_finite x }
{
    numbers::is_finite_f64(x)
}

// `x.abs()`
#[unsafe(no_mangle)]
pub extern "C" fn abs_f64(x: f64) -> f64
    ensures { result ≡ abs_f x }
{
    numbers::abs_f64(x)
}

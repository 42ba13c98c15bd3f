// A coordinate to the nearest step of 1/64 degree, halves to the even one: from its bits, in whole numbers alone.
#![tactic(auto)]

ghost use Rattle.std.specs.Prelude.{◌≡◌, ◌*◌, ◌^◌, ◌≤◌, ◌<◌};
ghost use Rattle.exact.specs.Units.{W, Within};
ghost use Rattle.bowl_nearest_step.specs.Step.{nearest_whole, nearest_step};

// t / 2^shift to the nearest whole number, halves to the even one. No jump, since nothing foretells it.
fn nearest_whole(t: u64, shift: u64) -> u64
    requires { (t < 2 ^ 53) × (0 < shift) × (shift ≤ 53) }
    ensures { result ≡ nearest_whole t (2 ^ shift) }
{
    let half = 1u64 << (shift - 1);
    let odd = (t >> shift) % 2;
    (t + (half - 1) + odd) >> shift
}

// 64 times significand · 2^exponent units, to the nearest whole number.
fn size_in_steps(significand: u64, exponent: u64) -> u64
    requires { (significand < 2 ^ 53) × (exponent ≤ 1031) }
    ensures { result ≡ nearest_whole (64 * (significand * 2 ^ exponent)) W }
{
    if exponent < 1015 {
        return 0;
    }
    nearest_whole(significand, 1068 - exponent)
}

// x to the nearest step.
pub fn nearest_step(x: f64) -> i32
    requires { Within 1001 x }
    ensures { result ≡ nearest_step x }
{
    let p = numbers::parts_of(x);
    let k = size_in_steps(p.significand, p.exponent) as i32;
    if p.negative { -k } else { k }
}

// IEEE 754's square root of an f64, worked out from its bits in whole numbers; a guess in floats is tested in whole numbers before it counts.
#![tactic(auto)]

ghost use Rattle.std.specs.Prelude.{◌≡◌, true, ◌+◌, ◌*◌, ◌^◌, ◌≤◌, ◌<◌};
ghost use Rattle.std.specs.Float.{binary64};
ghost use Rattle.std.specs.Float.Ieee.{of_bits};
ghost use Rattle.roots.specs.Parts.{Search, Found, Rooted};
ghost use Rattle.roots.specs.Sqrt.{near_root, round_root, sqrt as sqrt_of};

use base::{HIDDEN, SIGN};

// the bits of +infinity
const INFINITY: u64 = 0x7ff0_0000_0000_0000;
// the bits of 2^52
const WHOLES: u64 = 0x4330_0000_0000_0000;

// √(a * 2^52) to the nearest, digit by digit between q0 and q0 + w0: the square root by hand, in binary.
fn refine(a: u64, q0: u64, r0: u64, w0: u64, j0: u64) -> u64
    requires { Search a q0 r0 w0 j0 × (q0 + w0 ≤ 2 ^ 54) }
    ensures { Found a q0 w0 result }
{
    let mut q = q0;
    let mut r = r0;
    let mut w = w0;
    for _ in 0..j0 {
        w /= 2;
        r *= 2;
        let t = q * 2 + w;
        if t <= r {
            r -= t;
            q += w;
        }
    }
    if q < r { q + 1 } else { q }
}

// One step of Newton's towards 1 / √(2 * h).
fn newton(h: f64, r: f64) -> f64 {
    r * (1.5 - h * r * r)
}

// A guess at √x: nothing is promised of it.
fn guess(x: f64) -> f64 {
    let b = std::num::f64_to_bits_with_nan(x) / 2;
    if b > 0x5fe6_eb50_c7b5_37a9 {
        return 0.0;
    }
    let h = 0.5 * x;
    let r = newton(h, f64::from_bits(0x5fe6_eb50_c7b5_37a9 - b));
    let r = newton(h, newton(h, r));
    let g = x * r;
    g + 0.5 * r * (x - g * g)
}

// A guess at √(a * 2^52), from 2^52 to 2^53, where neighbouring f64 are neighbouring whole numbers.
fn guess_whole(a: u64) -> u64
    requires { a < 2 ^ 54 }
    ensures { (2 ^ 52 ≤ result) × (result ≤ 2 ^ 53) }
{
    let b = std::num::f64_to_bits_with_nan(guess((a / 2) as f64 * 9007199254740992.0));
    if b < WHOLES {
        return HIDDEN;
    }
    if b - WHOLES > HIDDEN {
        return HIDDEN;
    }
    b - WHOLES + HIDDEN
}

// Whether e * 2^27 lies from just above l * l - y to l * l + y.
fn is_above(e: u64, l: u64, y: u64) -> bool
    requires { (l < 2 ^ 26) × (y ≤ 2 ^ 53) }
    ensures { result ≡ true → (l * l < e * 2 ^ 27 + y) × (e * 2 ^ 27 ≤ l * l + y) }
{
    if e > 0x4000_0000 {
        return false;
    }
    let d = e * 0x800_0000;
    let m = l * l;
    if m < d + y {
        return d <= m + y;
    }
    false
}

// Whether l * l + n * 2^27 lies below y.
fn is_below(n: u64, l: u64, y: u64) -> bool
    requires { l < 2 ^ 26 }
    ensures { result ≡ true → l * l + n * 2 ^ 27 < y }
{
    if n > 0x4000_0000 {
        return false;
    }
    l * l + n * 0x800_0000 < y
}

// Whether y is √(a * 2^52) to the nearest, by what y * y leaves of a * 2^52, in halves of 26 digits; a no may be wrong.
fn is_root(a: u64, y: u64) -> bool
    requires { (a < 2 ^ 54) × ((0 < y) × (y ≤ 2 ^ 53)) }
    ensures { result ≡ true → y ≡ near_root (a * 2 ^ 52) 1 }
{
    let h = y / 0x400_0000;
    let l = y % 0x400_0000;
    if a < h * h {
        return false;
    }
    let c = a - h * h;
    if c > 0x2000_0000 {
        return false;
    }
    let p = c * 0x200_0000;
    let q = h * l;
    if q <= p {
        return is_above(p - q, l, y);
    }
    is_below(q - p, l, y)
}

// √(a * 2^52) to the nearest: a guess or its neighbour, where that is right, and else by the search from its first bounds, 2^52 and 2^53.
fn near_digits(a: u64) -> u64
    requires { (2 ^ 52 ≤ a) × (a < 2 ^ 54) }
    ensures { result ≡ near_root (a * 2 ^ 52) 1 }
{
    let y = guess_whole(a);
    if is_root(a, y) {
        return y;
    }
    if is_root(a, y - 1) {
        return y - 1;
    }
    if y < 0x20_0000_0000_0000 {
        if is_root(a, y + 1) {
            return y + 1;
        }
    }
    refine(a, HIDDEN, a - HIDDEN, HIDDEN, 52)
}

// The bits of √(m * 4^h * 2^52) units, a unit being the smallest positive f64: m is brought to 53 or 54 digits by fours.
fn root_by_fours(m: u64, h: u64) -> u64
    requires { (0 < m) × (m < 2 ^ 54) × (26 ≤ h) × (h < 2045) }
    ensures { Rooted (round_root binary64 (m * 4 ^ h * 2 ^ 52)) result }
{
    let mut a = m;
    let mut c = h;
    while a < HIDDEN {
        a *= 4;
        c -= 1;
    }
    c * HIDDEN + near_digits(a)
}

// The bits of the root of a positive finite f64, from its bits: a subnormal, or an even or odd exponent (clause 3.4's fields).
fn root_of(b: u64) -> u64
    requires { (0 < b) × (b < 2047 * 2 ^ 52) }
    ensures { Rooted (sqrt_of binary64 (of_bits binary64 b)) result }
{
    let e = b / HIDDEN;
    let t = b % HIDDEN;
    if e == 0 {
        return root_by_fours(t, 511);
    }
    if e % 2 == 0 {
        return root_by_fours((HIDDEN + t) * 2, e / 2 + 510);
    }
    root_by_fours(HIDDEN + t, e / 2 + 511)
}

// The square root of any f64: IEEE 754, clause 5.4.1, squareRoot.
pub fn sqrt(x: f64) -> f64
    ensures { result ≡ sqrt_of binary64 x }
{
    if x.is_nan() {
        return x;
    }
    let b = f64::to_bits(x);
    if b == 0 {
        return x;
    }
    if b == SIGN {
        return x;
    }
    if b > SIGN {
        return f64::NAN;
    }
    if b >= INFINITY {
        return x;
    }
    f64::from_bits(root_of(b))
}

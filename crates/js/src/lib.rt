// ECMAScript's Math.min, Math.max and toFixed with three decimals (js.rs).
#![tactic(auto)]

ghost use Rattle.std.specs.Prelude.{◌≡◌, true, ◌*◌, ◌^◌, ◌≤◌, ◌<◌};
ghost use Rattle.std.specs.Float.{binary64};
ghost use Rattle.std.specs.Float.Ieee.{of_bits, lt};
ghost use Rattle.js.specs.Js.{js_min, js_max, nearest_up, js_to_fixed};

use base::{HIDDEN, SIGN};

// Math.max, by hand: f64::max gives the number beside a NaN, and of two zeros either. Where only a is NaN no test holds, and a is returned.
pub fn js_max(a: f64, b: f64) -> f64
    ensures { result ≡ js_max a b }
{
    if a == b {
        if f64::to_bits(a) < SIGN {
            return a;
        }
        return b;
    }
    if b != b {
        return b;
    }
    if a < b {
        return b;
    }
    a
}

// Math.min: the mirror of the maximum.
pub fn js_min(a: f64, b: f64) -> f64
    ensures { result ≡ js_min a b }
{
    -js_max(-a, -b)
}

// The whole number of thousandths nearest to m / 2^c, a tie upward (toFixed's n).
fn thousandths(m: u64, c: u64) -> u64
    requires { (m < 2 ^ 53) × ((10 ≤ c) × (c < 64)) }
    ensures { (result ≡ nearest_up (m * 1000) (2 ^ c)) × (result ≤ 2 ^ 53) }
{
    let unit = 1u64 << c;
    let n = m * 1000 / unit;
    let rest = m * 1000 % unit;
    if rest * 2 < unit {
        return n;
    }
    n + 1
}

// toFixed of a positive number: nothing below 2^-11, itself from 2^43 on.
fn positive_fixed(x: f64) -> f64
    requires { lt (of_bits binary64 0) x ≡ true }
    ensures { result ≡ js_to_fixed x }
{
    let b = f64::to_bits(x);
    if b < 0x3f40_0000_0000_0000 {
        return 0.0;
    }
    if b < 0x42a0_0000_0000_0000 {
        let n = thousandths(b % HIDDEN + HIDDEN, 1075 - b / HIDDEN);
        return n as f64 / 1000.0;
    }
    x
}

// toFixed with three decimals, read back as a number.
pub fn js_to_fixed(x: f64) -> f64
    ensures { result ≡ js_to_fixed x }
{
    if x < 0.0 {
        return -positive_fixed(-x);
    }
    if 0.0 < x {
        return positive_fixed(x);
    }
    x + 0.0
}

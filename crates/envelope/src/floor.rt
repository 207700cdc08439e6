// The floor under the levels of a recording, and whether a floor is its own (envelope.rs, envelope).
ghost use Rattle.std.specs.Prelude.{◌≡◌};
ghost use Rattle.envelope.specs.Envelope.{floor as floor_of, own_floor};

use std::num::f64_to_bits_with_nan;

// The level of a recording's loudest frame where there is no sound.
const MIN_PEAK: f64 = 1e-9;

// The floor under levels: a hundredth of the loudest (envelope.rs, envelope).
pub fn floor_of(levels: &[f64]) -> f64
    ensures { result ≡ floor_of levels.now }
{
    let mut peak = MIN_PEAK;
    for level in levels {
        peak = js::js_max(peak, *level);
    }
    peak * 0.01
}

// Whether a floor is the one that these levels give, and no other recording's.
pub fn own_floor(levels: &[f64], floor: f64) -> bool
    ensures { result ≡ own_floor levels.now floor }
{
    f64_to_bits_with_nan(floor_of(levels)) == f64_to_bits_with_nan(floor)
}

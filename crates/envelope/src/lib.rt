// The levels of a recording and the floor under them, by one call (envelope.rs).
#![tactic(auto)]

ghost use Rattle.std.specs.Prelude.{◌≡◌, ◌++◌, ◌≤◌, length, drop};
ghost use Rattle.base.specs.Refusals.{first};
ghost use Rattle.envelope.specs.Envelope.{frames, levels as levels_of, floor as floor_of, output, tests, envelope_call};

use base::{HOP, Refusal};

pub mod floor;
pub mod frame_range;
pub mod level;
pub mod sound;
pub mod view;

// The first refusal that applies, of 4 and 6.
#[tactic(auto, unfolding(crate::specs::Envelope::tests, base::specs::Refusals::first))]
fn judge(samples: &[f32], levels: &[f64]) -> Result<(), Refusal>
    ensures { result ≡ first (tests samples.now levels.now) }
{
    if limits::sizes::many_samples(samples.len()) {
        return Err(Refusal::Counts);
    }
    if limits::sizes::few_places(levels.len(), samples.len() / HOP) {
        return Err(Refusal::Places);
    }
    Ok(())
}

// The levels of a recording that is within the limits, in their places, and the floor under them, which is given back.
pub fn hear(samples: &[f32], levels: &mut [f64]) -> f64
    requires { frames samples.now ≤ length levels.old }
    ensures { (levels.new
        ≡ levels_of samples.now ++ drop (frames samples.now) levels.old)
        × (result ≡ floor_of (levels_of samples.now)) }
{
    level::fill(samples, levels);
    let n = samples.len() / HOP;
    floor::floor_of(&levels[..n])
}

// The levels of a recording in lent places, and the floor under them (envelope.rs, envelope).
pub fn envelope(samples: &[f32], levels: &mut [f64]) -> Result<f64, Refusal>
    ensures { output result levels.new ≡ envelope_call samples.now levels.old }
{
    judge(samples, levels)?;
    Ok(hear(samples, levels))
}

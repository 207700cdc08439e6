// Pieces of a recording, cut in its quiet (pieces.rs).
#![tactic(auto)]

ghost use Rattle.std.specs.Prelude.{◌≡◌, ◌||◌, ◌+◌, ◌<◌, length};
ghost use Rattle.base.specs.Refusals.{first};
ghost use Rattle.limits.specs.Limits.{few_places};
ghost use Rattle.pieces.specs.Pieces.{cut, pieces, piece_count, need, tests, output, accepted, pieces_call, Ready};
ghost use Rattle.pieces.specs.Parts.{starts_over, ends_over};
ghost use Rattle.envelope.specs.Frames.{quiet_in};

use base::{HOP, Refusal};
use cut::MAX_FRAMES;
use envelope::view::Envelope;

pub mod cut;
pub mod window;

// The number of pieces.
pub fn count_pieces(e: Envelope<'_>) -> usize
    ensures { result ≡ piece_count (quiet_in e.entry) }
{
    let mut from = 0;
    let mut n = 0;
    while from < e.levels.len() {
        if e.levels.len() - from <= MAX_FRAMES {
            return n + 1;
        }
        from = cut::find_cut(e, from);
        n += 1;
    }
    n
}

// Writes the first sample of each piece and its end.
pub fn write_pieces(e: Envelope<'_>, starts: &mut [usize], ends: &mut [usize])
    requires { Ready (length e.levels.now) e.count (length starts.old) (length ends.old) }
    ensures { let quiet_frames = quiet_in e.entry in
        (starts.new ≡ starts_over (pieces quiet_frames e.entry.count) starts.old)
        × (ends.new ≡ ends_over (pieces quiet_frames e.entry.count) ends.old) }
{
    let mut from = 0;
    let mut n = 0;
    while from < e.levels.len() {
        if e.levels.len() - from <= MAX_FRAMES {
            starts[n] = from * HOP;
            ends[n] = e.count;
            return;
        }
        let cut = cut::find_cut(e, from);
        starts[n] = from * HOP;
        ends[n] = cut * HOP;
        from = cut;
        n += 1;
    }
}

// The places that the pieces of so many frames need.
#[tactic(auto, unfolding(crate::specs::Pieces::need))]
pub fn places_needed(frames: usize) -> usize
    ensures { result ≡ need frames }
{
    frames.div_ceil(1203)
}

// Too few places in either list (refusal 6).
fn short_of_places(frames: usize, starts: usize, ends: usize) -> bool
    ensures { result ≡ (few_places starts (need frames) || few_places ends (need frames)) }
{
    let places = places_needed(frames);
    limits::sizes::few_places(starts, places) || limits::sizes::few_places(ends, places)
}

// The first refusal that applies, of 4, 7, 6; a cut is always beyond its piece's start, so that 8 never does.
fn judge(e: Envelope<'_>, starts: &[usize], ends: &[usize]) -> Result<(), Refusal>
    ensures { result ≡ first (tests e.entry.levels.now e.entry.floor e.entry.count (length starts.now) (length ends.now)) }
{
    if limits::sizes::many_samples(e.count) {
        return Err(Refusal::Counts);
    }
    if limits::sizes::other_levels(e.levels.len(), e.count) {
        return Err(Refusal::Levels);
    }
    if short_of_places(e.levels.len(), starts.len(), ends.len()) {
        return Err(Refusal::Places);
    }
    Ok(())
}

// The pieces of a recording of `count` samples, from its levels and their floor (pieces.rs, pieces).
pub fn pieces(e: Envelope<'_>, starts: &mut [usize], ends: &mut [usize]) -> Result<usize, Refusal>
    ensures { output result starts.new ends.new
        ≡ pieces_call e.entry.levels.now e.entry.floor e.entry.count starts.old ends.old }
{
    judge(e, starts, ends)?;
    let n = count_pieces(e);
    write_pieces(e, starts, ends);
    Ok(n)
}

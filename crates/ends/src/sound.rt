// Where a sound ends: behind the last loud frame before a silence (onsets.rs, snap_ends).
ghost use Rattle.std.specs.Prelude.{◌≡◌, ◌<◌, ◌≤◌, ◌^◌, pos};
ghost use Rattle.std.proofs.Math.IntN.{suc_ℤ, pred_ℤ};
ghost use Rattle.ends.specs.Ends.{last_loud, sound_end};
ghost use Rattle.ends.specs.Parts.{sound_on};
ghost use Rattle.envelope.specs.Frames.{loud_in};

use envelope::frame_range::FrameRange;
use envelope::view::Envelope;

// The frame past the last loud one, of a sound that was met before these frames, before `edge` quiet ones: looks back from the last frame that
// may go on with it.
fn sound_past(e: Envelope<'_>, edge: usize, r: FrameRange) -> usize
    requires { (r.lo ≤ r.hi) × ((0 < r.lo) × ((0 < edge) × (edge ≤ 2 ^ 62))) }
    ensures { (pos result ≡ suc_ℤ (sound_on edge (loud_in e.entry) r.lo r.hi)) × (result ≤ r.hi) }
{
    let mut past = r.lo;
    while past < r.hi {
        let Some(last) = e.last_frame(past, r.hi.min(past + edge)) else {
            return past;
        };
        past = last + 1;
    }
    past
}

// The frame past the last loud one of these, before `edge` quiet ones; 0 for none.
pub fn last_loud(e: Envelope<'_>, edge: usize, r: FrameRange) -> usize
    requires { (0 < edge) × (edge ≤ 2 ^ 62) }
    ensures { (pos result ≡ suc_ℤ (last_loud edge (loud_in e.entry) (pos r.lo) (pos r.hi))) × (result ≤ r.hi) }
{
    let Some(first) = e.first_frame(true, r.lo, r.hi) else {
        return 0;
    };
    let after = FrameRange {
        lo: first + 1,
        hi: r.hi,
    };
    sound_past(e, edge, after)
}

// Where the sound ends before frame `past`; no sound where that is 0.
pub fn sound_end(past: usize) -> Option<f64>
    ensures { result ≡ sound_end (pred_ℤ (pos past)) }
{
    if past == 0 {
        return None;
    }
    Some(frames::index_seconds(past))
}

// Where the sound of these frames ends, before `edge` quiet ones; no sound where none of them is loud.
pub fn sound_end_in(e: Envelope<'_>, edge: usize, r: FrameRange) -> Option<f64>
    requires { (0 < edge) × (edge ≤ 2 ^ 62) }
    ensures { result ≡ sound_end (last_loud edge (loud_in e.entry) (pos r.lo) (pos r.hi)) }
{
    sound_end(last_loud(e, edge, r))
}

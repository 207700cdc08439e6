// The three stages on sound that a full run takes before placing (document 01, "Full run").
ghost use Rattle.std.specs.Prelude.{◌≡◌, ℕ, ◌≤◌, length, get_or};
ghost use Rattle.base.specs.Words.{edges};
ghost use Rattle.tails.specs.Tails.{hand_back_tails};
ghost use Rattle.onsets.specs.Onsets.{snap_onsets};
ghost use Rattle.ends.specs.Ends.{snap_ends};
ghost use Rattle.envelope.specs.Frames.{loud_in};

use envelope::view::Envelope;

// Tails, onsets, ends, in this order; nothing is checked.
pub fn snap(
    starts: &mut [f64],
    ends: &mut [f64],
    letters: &[u32],
    units: &[u32],
    e: Envelope<'_>,
    duration: f64,
)
    requires { (length ends.old ≡ length starts.old)
        × ((length letters.now ≡ length starts.old)
        × ((length units.now ≡ length starts.old) × ((i : ℕ) → get_or letters.now i 0 ≤ 1000))) }
    ensures { let before = edges starts.old ends.old in
        let after = edges starts.new ends.new in
        let loud_frames = loud_in e.entry in
        after
        ≡ snap_ends loud_frames duration units.now (snap_onsets loud_frames (hand_back_tails loud_frames letters.now before)) }
{
    super::lists::move_tails(starts, ends, letters, e);
    onsets::move_onsets(starts, ends, e);
    super::lists::move_ends(starts, ends, units, e, duration);
}

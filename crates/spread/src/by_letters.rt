// Time shared by letters: a spread, and those before the first word inside and after the last (phrase_align.rs, spread).
ghost use Rattle.std.specs.Prelude.{◌≡◌, ◌+◌, ◌<◌, ◌≤◌, length};
ghost use Rattle.base.specs.Words.{edges};
ghost use Rattle.base.specs.TimedWords.{edges_of, SameLists};
ghost use Rattle.spread.specs.Spread.{spread as spread_over, spread_before, spread_after};

use base::timed_words::TimedWords;

// Shares the time from `from` to `to` by letters, and none where `to` is sooner (phrase_align.rs, spread).
pub fn spread(starts: &mut [f64], ends: &mut [f64], letters: &[u32], from: f64, to: f64)
    requires { (length starts.old ≡ length letters.now) × ((length ends.old ≡ length letters.now) × (length letters.now ≤ 4096)) }
    ensures { let before = edges starts.old ends.old in
        let after = edges starts.new ends.new in
        after ≡ spread_over letters.now from to before }
{
    let room = js::js_max(0.0, to - from);
    let total = share::total(letters);
    share::share(starts, ends, letters, room, total, from);
}

// Spreads the words before the first inside one from the span's start.
pub fn spread_before(w: &mut TimedWords<'_>, from: f64, first: usize)
    requires { (first < length w.old.starts.now) × (length w.old.starts.now ≤ 4096) }
    ensures same { SameLists w.old w.new }
    ensures spread { edges_of w.new ≡ spread_before w.old.weights.now from first (edges_of w.old) }
{
    let to = w.starts[first];
    spread(
        &mut w.starts[0..first],
        &mut w.ends[0..first],
        &w.weights[0..first],
        from,
        to,
    );
}

// Spreads the words after the last inside one up to the span's end.
pub fn spread_after(w: &mut TimedWords<'_>, to: f64, last: usize)
    requires { (last < length w.old.starts.now) × (length w.old.starts.now ≤ 4096) }
    ensures same { SameLists w.old w.new }
    ensures spread { edges_of w.new ≡ spread_after w.old.weights.now to last (edges_of w.old) }
{
    let from = w.ends[last];
    spread(
        &mut w.starts[last + 1..],
        &mut w.ends[last + 1..],
        &w.weights[last + 1..],
        from,
        to,
    );
}

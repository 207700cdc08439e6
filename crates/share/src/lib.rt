// A time shared out by letters: the loop of `spread` (phrase_align.rs), and the last loop of `even_out` (even.rs).
#![tactic(auto)]

ghost use Rattle.std.specs.Prelude.{◌≡◌, ◌≤◌, length};
ghost use Rattle.base.specs.Floats.{num};
ghost use Rattle.base.specs.Words.{edges};
ghost use Rattle.share.specs.Share.{sum, share as share_out};

// The letters of all words.
pub fn total(letters: &[u32]) -> f64
    requires { length letters.now ≤ 4096 }
    ensures { result ≡ num (sum letters.now) }
{
    let n: u64 = letters.iter().map(|n| u64::from(*n)).sum();
    n as f64
}

// Each word starts where the one before it ends, from `from` on, and lasts as long as its share of `room` by letters.
pub fn share(
    starts: &mut [f64],
    ends: &mut [f64],
    letters: &[u32],
    room: f64,
    total: f64,
    from: f64,
)
    requires { (length starts.old ≡ length letters.now) × (length ends.old ≡ length letters.now) }
    ensures { let before = edges starts.old ends.old in
        let after = edges starts.new ends.new in
        after ≡ share_out letters.now room total from before }
{
    let mut t = from;
    for (i, n) in letters.iter().enumerate() {
        let end = t + room * f64::from(*n) / total;
        starts[i] = t;
        ends[i] = end;
        t = end;
    }
}

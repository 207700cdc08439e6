// A list of spans that has passed the tests (document 01).
ghost use Rattle.std.specs.Prelude.{◌≡◌, ◌≤◌, length};

// The spans' starts and ends, in seconds, and their counts of words: equally many, and no more than are taken.
#[derive(Clone, Copy)]
pub struct SpanList<'a> {
    pub starts: &'a [f64],
    pub ends: &'a [f64],
    pub counts: &'a [u32],
    pub ghost alike: { (length ends.now ≡ length starts.now) × (length counts.now ≡ length starts.now) },
    pub ghost few: { length starts.now ≤ 4096 },
}

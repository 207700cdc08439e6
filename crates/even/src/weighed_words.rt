// Words that are only looked at (even.rs, even_out).
ghost use Rattle.std.specs.Prelude.{◌≡◌, length};

// The words' starts and ends, in seconds, and what each word is weighed by, its letters or its units: equally many.
#[derive(Clone, Copy)]
pub struct WeighedWords<'a> {
    pub starts: &'a [f64],
    pub ends: &'a [f64],
    pub weights: &'a [u32],
    pub ghost alike: { (length ends.now ≡ length starts.now) × (length weights.now ≡ length starts.now) },
}

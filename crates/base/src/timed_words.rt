// The words whose times a stage moves (document 01).
ghost use Rattle.std.specs.Prelude.{◌≡◌, length};

use crate::Times;

// The words' starts and ends, in seconds, and what a stage weighs each word by, its letters or its units: equally many.
#[derive(Drop)]
pub struct TimedWords<'a> {
    pub starts: &'a mut [f64],
    pub ends: &'a mut [f64],
    pub weights: &'a [u32],
    pub ghost alike: { (length ends.now ≡ length starts.now) × (length weights.now ≡ length starts.now) },
}

impl<'a> TimedWords<'a> {
    ghost use Rattle.std.specs.Prelude.{◌≡◌, ◌<◌, length};
    ghost use Rattle.base.specs.Words.{times_at, set_times};
    ghost use Rattle.base.specs.TimedWords.{edges_of, SameLists};

    // Word i's times.
    pub fn at(&self, i: usize) -> Times
        requires { i < length self.now.starts.now }
        ensures { result ≡ times_at (edges_of self.now) i }
    {
        Times {
            start: self.starts[i],
            end: self.ends[i],
        }
    }

    // Gives word i these times.
    pub fn put(&mut self, i: usize, w: Times)
        requires { i < length self.old.starts.now }
        ensures same { SameLists self.old self.new }
        ensures moved { edges_of self.new ≡ set_times (edges_of self.old) i w }
    {
        self.starts[i] = w.start;
        self.ends[i] = w.end;
    }
}

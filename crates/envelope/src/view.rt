// An envelope: its levels and its floor together, with the sample count, and what is asked of it (document 01; envelope.rs, Envelope).
ghost use Rattle.std.specs.Prelude.{◌≡◌, false, not, length, min, slice_index_or, MatchOption};
ghost use Rattle.base.specs.Whole.{to_nat};
ghost use Rattle.frames.specs.Frames.{frame_at};
ghost use Rattle.envelope.specs.Envelope.{own_floor};
ghost use Rattle.envelope.specs.Frames.{loud_in, first_frame, last_frame};
ghost use Rattle.envelope.specs.Parts.{Throughout, IsFirst, IsLast};

use super::frame_range::FrameRange;

// The levels of a recording of `count` samples, and the floor under them.
#[derive(Clone, Copy)]
pub struct Envelope<'a> {
    pub levels: &'a [f64],
    pub floor: f64,
    pub count: usize,
}

impl<'a> Envelope<'a> {
    // The envelope of these levels, this floor and this count.
    pub fn new(levels: &'a [f64], floor: f64, count: usize) -> Envelope<'a>
        ensures { (result.levels ≡ levels.entry) × ((result.floor ≡ floor) × (result.count ≡ count)) }
    {
        Envelope {
            levels,
            floor,
            count,
        }
    }

    // The number of frames (envelope.rs, frames).
    pub fn frames(self) -> usize
        ensures { result ≡ length self.entry.levels.now }
    {
        self.levels.len()
    }

    // Whether frame k, counted from zero, is over the floor; a frame outside is not (envelope.rs, loud).
    pub fn loud(self, k: usize) -> bool
        ensures { result ≡ slice_index_or (loud_in self.entry) k false }
    {
        k < self.levels.len() && self.levels[k] > self.floor
    }

    // Whether the floor is the one that the levels give.
    pub fn own(self) -> bool
        ensures { result ≡ own_floor self.entry.levels.now self.entry.floor }
    {
        super::floor::own_floor(self.levels, self.floor)
    }

    // The frames from that of one time, frame 0 at the earliest, to before that of another, as far as there are frames.
    pub fn between(self, from: f64, to: f64) -> FrameRange
        ensures { (result.lo ≡ to_nat (frame_at from)) × (result.hi ≡ min (length self.entry.levels.now) (to_nat (frame_at to))) }
    {
        FrameRange {
            lo: frames::index_at(from),
            hi: self.levels.len().min(frames::index_at(to)),
        }
    }

    // The first frame from lo to before hi that is loud, or that is not, if there is one.
    pub fn first_frame(self, want: bool, lo: usize, hi: usize) -> Option<usize>
        ensures answer { result ≡ first_frame (loud_in self.entry) want lo hi }
        ensures found { let row = loud_in self.entry in
            MatchOption result (Throughout row (not want) lo hi) (IsFirst row want lo hi) }
    {
        for k in lo..hi {
            if self.loud(k) == want {
                return Some(k);
            }
        }
        None
    }

    // The last loud frame from lo to before hi, if there is one.
    pub fn last_frame(self, lo: usize, hi: usize) -> Option<usize>
        ensures answer { result ≡ last_frame (loud_in self.entry) lo hi }
        ensures found { let row = loud_in self.entry in
            MatchOption result (Throughout row false lo hi) (IsLast row lo hi) }
    {
        for k in (lo..hi).rev() {
            if self.loud(k) {
                return Some(k);
            }
        }
        None
    }
}

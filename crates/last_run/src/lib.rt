// The last run of sound between two times (fit.rs, last_run).
#![tactic(auto)]

ghost use Rattle.std.specs.Prelude.{◌≡◌, false, ◌||◌, ◌+◌, ◌<◌, ◌≤◌, ◌^◌, max, pos, length, IfSome};
ghost use Rattle.base.specs.Refusals.{first};
ghost use Rattle.limits.specs.Limits.{bad_time};
ghost use Rattle.last_run.specs.LastRun.{back_step, ends_between, frames_of, frame_run, seconds_of, last_run, tests, last_run_call};
ghost use Rattle.last_run.specs.Parts.{ends_of, turn_of, last_frame};
ghost use Rattle.envelope.specs.Frames.{loud_in};

use base::{END_SILENCE, Refusal, Times};
use envelope::frame_range::FrameRange;
use envelope::view::Envelope;

// The last frame of a run that counts lies so many frames behind the first, or more.
const MIN_RUN: usize = 3;

// The first and the last frame of a run.
#[derive(Clone, Copy)]
pub struct FrameRun {
    pub first: usize,
    pub last: usize,
}

// A search backwards: the first frame of the run so far, the frame past its last (0: no loud frame was met; with an `Option` in its place
// a search took twice as long), and whether it is over.
#[derive(Drop)]
pub struct Search {
    pub first: usize,
    pub past: usize,
    pub over: bool,
}

// One step of the search, at frame k: at a loud one the run so far begins; a quiet one ends it where more than 15 of them lie before it.
pub fn step(s: Search, loud: bool, k: usize) -> Search
    requires { (s.over ≡ false) × (k ≤ 2 ^ 62) }
    ensures { (turn_of result ≡ back_step loud (pos k) (ends_of s))
        × ((result.first ≤ max s.first k) × (result.past ≤ max s.past (k + 1))) }
{
    match (loud, s.past) {
        (true, 0) => Search {
            first: k,
            past: k + 1,
            over: false,
        },
        (true, past) => Search {
            first: k,
            past,
            over: false,
        },
        (false, 0) => s,
        (false, past) => Search {
            first: s.first,
            past,
            over: k + END_SILENCE < s.first,
        },
    }
}

// The search back from the last of these frames to the first.
fn search_back(e: Envelope<'_>, r: FrameRange) -> Search
    ensures { (ends_of result ≡ ends_between (loud_in e.entry) (pos r.lo) (pos r.hi)) × (result.past ≤ r.hi) }
{
    let mut s = Search {
        first: 0,
        past: 0,
        over: false,
    };
    for k in (r.lo..r.hi).rev() {
        s = step(s, e.loud(k), k);
        if s.over {
            return s;
        }
    }
    s
}

// The run that a search found, where it is long enough.
pub fn frames_of(s: Search) -> Option<FrameRun>
    ensures { (result ≡ frames_of (ends_of s)) × IfSome result (λ run. run.last < s.past) }
{
    if s.past == 0 {
        return None;
    }
    let last = s.past - 1;
    if last.saturating_sub(s.first) < MIN_RUN {
        return None;
    }
    Some(FrameRun {
        first: s.first,
        last,
    })
}

// The last run of these frames.
pub fn frame_run(e: Envelope<'_>, r: FrameRange) -> Option<FrameRun>
    ensures { (result ≡ frame_run (loud_in e.entry) (pos r.lo) (pos r.hi)) × IfSome result (λ run. run.last < r.hi) }
{
    frames_of(search_back(e, r))
}

// A run's start and end in seconds, if there is one.
pub fn seconds_of(r: Option<FrameRun>) -> Option<Times>
    requires { last_frame r + 1 < 2 ^ 64 }
    ensures { result ≡ seconds_of r }
{
    let run = r?;
    Some(Times {
        start: frames::index_seconds(run.first),
        end: frames::index_seconds(run.last + 1),
    })
}

// The last run between two times, if there is sound (fit.rs, last_run); nothing is checked.
pub fn run_between(e: Envelope<'_>, from: f64, to: f64) -> Option<Times>
    ensures { result ≡ last_run (loud_in e.entry) from to }
{
    seconds_of(frame_run(e, e.between(from, to)))
}

// Whether one of two times is outside its range.
fn bad_times(from: f64, to: f64) -> bool
    ensures { result ≡ (bad_time from || bad_time to) }
{
    limits::times::bad_time(from) || limits::times::bad_time(to)
}

// The first refusal that applies, of 4, 1 and 7.
#[tactic(auto, unfolding(crate::specs::LastRun::tests, base::specs::Refusals::first))]
fn judge(levels: usize, count: usize, from: f64, to: f64) -> Result<(), Refusal>
    ensures { result ≡ first (tests levels count from to) }
{
    if limits::sizes::many_samples(count) {
        return Err(Refusal::Counts);
    }
    if bad_times(from, to) {
        return Err(Refusal::Time);
    }
    if limits::sizes::other_levels(levels, count) {
        return Err(Refusal::Levels);
    }
    Ok(())
}

// The last run between two times, of levels and times within the limits (fit.rs, last_run).
pub fn last_run(e: Envelope<'_>, from: f64, to: f64) -> Result<Option<Times>, Refusal>
    ensures { result ≡ last_run_call e.entry.levels.now e.entry.floor e.entry.count from to }
{
    judge(e.levels.len(), e.count, from, to)?;
    Ok(run_between(e, from, to))
}

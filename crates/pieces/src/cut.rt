// Where a piece of a recording is cut: in the middle of its longest quiet (pieces.rs).
ghost use Rattle.std.specs.Prelude.{◌≡◌, ◌+◌, ◌≤◌, ◌<◌, length};
ghost use Rattle.std.specs.Float.Ieee.{le};
ghost use Rattle.envelope.specs.Envelope.{quiet_row};
ghost use Rattle.envelope.specs.Frames.{quiet_in};
ghost use Rattle.pieces.specs.Pieces.{cut};
ghost use Rattle.pieces.specs.Parts.{middle, quiet_start, quiet_end, Stands};

use super::window::Window;
use envelope::view::Envelope;

// The most frames in one piece: 20 s.
pub const MAX_FRAMES: usize = 2000;
// A cut is searched for in this many frames at the end of a piece: 8 s.
const SEARCH_FRAMES: usize = 800;
// A silence this many frames long or longer can hold a cut: 80 ms.
const MIN_QUIET: usize = 8;

// A search for a cut: where it goes on, the longest quiet run so far (one short of the least that can hold a cut: none), and the place in its middle.
#[derive(Drop)]
struct Quiet {
    start: usize,
    longest: usize,
    middle: usize,
}

// A quiet frame, by its level; with a NaN it is not one (document 01, "Levels").
fn is_quiet(level: f64, floor: f64) -> bool
    ensures { result ≡ le level floor }
{
    level <= floor
}

// Where the quiet frames before `to` start, at `from` at the earliest.
fn quiet_from(w: Window<'_>, from: usize, to: usize) -> usize
    requires { (from ≤ to) × (to ≤ 800) }
    ensures { (result ≡ quiet_start (quiet_row w.entry.floor w.entry.levels.now) from to) × ((from ≤ result) × (result ≤ to)) }
{
    for k in (from..to).rev() {
        if !is_quiet(w.levels[k], w.floor) {
            return k + 1;
        }
    }
    from
}

// Where the quiet frames from `from` on end.
fn quiet_to(w: Window<'_>, from: usize) -> usize
    requires { from ≤ 800 }
    ensures { (result ≡ quiet_end (quiet_row w.entry.floor w.entry.levels.now) from) × ((from ≤ result) × (result ≤ 800)) }
{
    for k in from..SEARCH_FRAMES {
        if !is_quiet(w.levels[k], w.floor) {
            return k;
        }
    }
    SEARCH_FRAMES
}

// The search, one step on: it looks at one frame more than the longest run has, the last of them first; it goes on behind the first that
// is not quiet, or, where all are quiet, behind the end of their run.
fn search_run(w: Window<'_>, q: Quiet) -> Quiet
    requires { (q.start + q.longest < 800) × Stands (quiet_row w.floor w.levels.now) q }
    ensures { Stands (quiet_row w.entry.floor w.entry.levels.now) result × (q.start < result.start) }
{
    let start = q.start;
    let to = start + q.longest + 1;
    let from = quiet_from(w, start, to);
    if start < from {
        return Quiet {
            start: from,
            longest: q.longest,
            middle: q.middle,
        };
    }
    let end = quiet_to(w, to);
    let longest = end - start;
    Quiet {
        start: end + 1,
        longest,
        middle: end - 1 - longest / 2,
    }
}

// The place of a cut in the frames searched; past them where they hold none (an `Option` would be no plainer: the cut then stands at the
// end, and needs no case).
fn find_middle(w: Window<'_>) -> usize
    ensures { (result ≡ middle (quiet_row w.entry.floor w.entry.levels.now)) × (result ≤ 800) }
{
    let mut q = Quiet {
        start: 0,
        longest: MIN_QUIET - 1,
        middle: SEARCH_FRAMES,
    };
    while q.start + q.longest < SEARCH_FRAMES {
        q = search_run(w, q);
    }
    q.middle
}

// Where a piece that starts at `from` is cut.
pub fn find_cut(e: Envelope<'_>, from: usize) -> usize
    requires { from + 2000 ≤ length e.levels.now }
    ensures { (result ≡ cut (quiet_in e.entry) from) × ((from + 1203 ≤ result) × (result ≤ from + 2000)) }
{
    let a = from + MAX_FRAMES - SEARCH_FRAMES;
    let end = from + MAX_FRAMES;
    let w = Window {
        levels: &e.levels[a..end],
        floor: e.floor,
    };
    a + find_middle(w)
}

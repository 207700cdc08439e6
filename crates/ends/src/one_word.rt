// One word's times: its end moved to where the sound stops, or the edge that it shares with the next (onsets.rs, snap_ends).
ghost use Rattle.std.specs.Prelude.{◌≡◌, ◌<◌, length};
ghost use Rattle.ends.specs.Ends.{next_start, soon as soon_of, is_pair, pair_start, pair_edge, pair_of, reach as reach_of, or_duration, trimmed, end_of};
ghost use Rattle.ends.specs.Parts.{is_loose};
ghost use Rattle.envelope.specs.Frames.{loud_in};

use base::timed_words::TimedWords;
use base::{EDGE_QUIET, LOOSE, Times};
use envelope::view::Envelope;

// A shorter word, in seconds, is too short to be one.
const NO_LENGTH: f64 = 0.06;
// What a word that is too short and the next have between them, in seconds, at the least.
const PAIR_SPAN: f64 = 0.12;

// An end that is loose, or a word that is too short.
#[tactic(auto, unfolding(crate::specs::Parts::is_loose))]
fn is_loose(sound: f64, w: Times) -> bool
    ensures { result ≡ is_loose sound w }
{
    w.end > sound + LOOSE || w.end - w.start < NO_LENGTH
}

// A word's times, its end moved to the end of its sound at `sound`, where it is loose.
#[tactic(auto, unfolding(crate::specs::Ends::trimmed, crate::specs::Parts::is_loose))]
fn trim_to(sound: f64, limit: f64, w: Times) -> Times
    ensures { result ≡ trimmed (Some sound) limit w }
{
    if is_loose(sound, w) {
        return Times {
            start: w.start,
            end: js::js_max(w.start + NO_LENGTH, js::js_min(sound, limit)),
        };
    }
    w
}

// A word's times, its end moved to the end of its sound, where there is one.
fn trim(sound: Option<f64>, limit: f64, w: Times) -> Times
    ensures { result ≡ trimmed sound limit w }
{
    match sound {
        None => w,
        Some(s) => trim_to(s, limit, w),
    }
}

// How far a word's sound is looked for: to the next word's start, and at least to its own; to the duration after the last word.
#[tactic(auto, unfolding(crate::specs::Ends::reach))]
fn reach(next: Option<f64>, duration: f64, start: f64) -> f64
    ensures { result ≡ reach_of next duration start }
{
    next.map_or(duration, |s| js::js_max(s, start))
}

// The next word's start, or the duration after the last word.
#[tactic(auto, unfolding(crate::specs::Ends::or_duration))]
pub fn or_duration(next: Option<f64>, duration: f64) -> f64
    ensures { result ≡ or_duration next duration }
{
    next.unwrap_or(duration)
}

// A word that is no pair with the next: its times, with its end by its sound.
pub fn end_of(e: Envelope<'_>, duration: f64, next: Option<f64>, w: Times) -> Times
    ensures { result ≡ end_of (loud_in e.entry) duration next w }
{
    let r = e.between(w.start, reach(next, duration, w.start));
    let sound = super::sound::sound_end_in(e, EDGE_QUIET, r);
    trim(sound, or_duration(next, duration), w)
}

// Where the word after word i starts, if there is one.
#[tactic(auto, unfolding(crate::specs::Ends::next_start))]
pub fn next_start(starts: &[f64], i: usize) -> Option<f64>
    requires { i < length starts.now }
    ensures { result ≡ next_start starts.now i }
{
    starts.get(i + 1).copied()
}

// The same, of the words whose times are moved.
pub fn start_after(w: &TimedWords<'_>, i: usize) -> Option<f64>
    requires { i < length w.now.starts.now }
    ensures { result ≡ next_start w.now.starts.now i }
{
    next_start(w.starts, i)
}

// Whether there is a next word, and it starts less than 0.06 s after this one, or before it.
fn soon(next: Option<f64>, w: Times) -> bool
    ensures { result ≡ soon_of next w }
{
    next.is_some_and(|s| s - w.start < NO_LENGTH)
}

// A word that is too short, and a next word so near that the two share an edge.
#[tactic(auto, unfolding(crate::specs::Ends::is_pair))]
pub fn is_pair(next: Option<f64>, w: Times) -> bool
    ensures { result ≡ is_pair next w }
{
    w.end - w.start < NO_LENGTH && soon(next, w)
}

// Where the first of two words that share an edge starts: at the first loud frame up to the next word's end, if that is later.
fn pair_start(e: Envelope<'_>, start: f64, next_end: f64) -> f64
    ensures { result ≡ pair_start (loud_in e.entry) start next_end }
{
    let r = e.between(start, next_end);
    let Some(k) = e.first_frame(true, r.lo, r.hi) else {
        return start;
    };
    js::js_max(start, frames::index_seconds(k))
}

// The edge that two words share, by their units, to three decimals.
#[tactic(auto, unfolding(crate::specs::Ends::pair_edge))]
fn pair_edge(start: f64, next_end: f64, own: u32, other: u32) -> f64
    ensures { result ≡ pair_edge start next_end own other }
{
    let share = own as f64 / (own as f64 + other as f64);
    js::js_to_fixed(start + (js::js_max(next_end, start + PAIR_SPAN) - start) * share)
}

// The times of the first of two words that share an edge.
#[tactic(auto, unfolding(crate::specs::Ends::pair_of))]
pub fn pair_of(e: Envelope<'_>, w: Times, next_end: f64, own: u32, other: u32) -> Times
    ensures { result ≡ pair_of (loud_in e.entry) w next_end own other }
{
    let start = pair_start(e, w.start, next_end);
    Times {
        start,
        end: pair_edge(start, next_end, own, other),
    }
}

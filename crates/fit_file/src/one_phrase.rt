// The words of one phrase, fitted to their sound and kept inside their span (fit.rs, fit_file).
ghost use Rattle.std.specs.Prelude.{◌≡◌, ◌<◌, ◌≤◌, length};
ghost use Rattle.base.specs.Words.{edges};
ghost use Rattle.base.specs.TimedWords.{edges_of, SameLists};
ghost use Rattle.fit_file.specs.FitFile.{inside_span, keep_inside, make_way, take_sound, take_run, take_trailing, fit_group};
ghost use Rattle.envelope.specs.Frames.{loud_in};

use base::Times;
use base::timed_words::TimedWords;
use envelope::view::Envelope;

// A phrase's words last so many seconds at the least.
const MIN_WORD: f64 = 0.04;
// Sound after the last word counts once it starts so many seconds after it.
const TRAILING_GAP: f64 = 0.15;

// A word kept inside its span, 0.04 s long at the least.
#[tactic(auto, unfolding(crate::specs::FitFile::inside_span))]
fn inside_span(span: Times, w: Times) -> Times
    ensures { result ≡ inside_span span w }
{
    let start = js::js_min(js::js_max(w.start, span.start), span.end - MIN_WORD);
    Times {
        start,
        end: js::js_min(js::js_max(w.end, start + MIN_WORD), span.end),
    }
}

// Keeps each word of a phrase inside its span.
fn keep_inside(w: &mut TimedWords<'_>, span: Times)
    ensures same { SameLists w.old w.new }
    ensures inside { edges_of w.new ≡ keep_inside span (edges_of w.old) }
{
    for i in 0..w.starts.len() {
        w.put(i, inside_span(span, w.at(i)));
    }
}

// The word before the last ends where that starts, if it ended later.
#[tactic(auto, unfolding(crate::specs::FitFile::make_way))]
fn make_way(w: &mut TimedWords<'_>, last: usize, start: f64)
    requires { last < length w.old.ends.now }
    ensures same { SameLists w.old w.new }
    ensures made { edges_of w.new ≡ edges w.old.starts.now (make_way last start w.old.ends.now) }
{
    if 0 < last {
        w.ends[last - 1] = js::js_min(w.ends[last - 1], start);
    }
}

// The last word takes a sound after it.
#[tactic(auto, unfolding(crate::specs::FitFile::take_sound))]
fn take_sound(w: &mut TimedWords<'_>, sound: Times, last: usize)
    requires { last < length w.old.starts.now }
    ensures same { SameLists w.old w.new }
    ensures taken { edges_of w.new ≡ take_sound last sound (edges_of w.old) }
{
    w.put(last, sound);
    make_way(w, last, sound.start);
}

// The last word takes a sound, where it starts after `after`.
#[tactic(auto, unfolding(crate::specs::FitFile::take_run))]
fn take_late(w: &mut TimedWords<'_>, sound: Times, after: f64, last: usize)
    requires { last < length w.old.starts.now }
    ensures same { SameLists w.old w.new }
    ensures taken { edges_of w.new ≡ take_run (Some sound) after last (edges_of w.old) }
{
    if sound.start > after {
        take_sound(w, sound, last);
    }
}

// The last word takes a run of sound, where there is one and it starts after `after`.
#[tactic(auto, unfolding(crate::specs::FitFile::take_run))]
fn take_run(w: &mut TimedWords<'_>, run: Option<Times>, after: f64, last: usize)
    requires { last < length w.old.starts.now }
    ensures same { SameLists w.old w.new }
    ensures taken { edges_of w.new ≡ take_run run after last (edges_of w.old) }
{
    if let Some(sound) = run {
        take_late(w, sound, after, last);
    }
}

// The last word takes the sound at the end of its span that no word has.
#[tactic(auto, unfolding(crate::specs::FitFile::take_trailing))]
fn take_trailing(w: &mut TimedWords<'_>, e: Envelope<'_>, to: f64)
    requires { 0 < length w.old.starts.now }
    ensures same { SameLists w.old w.new }
    ensures taken { edges_of w.new ≡ take_trailing (loud_in e.entry) to (edges_of w.old) }
{
    let last = w.starts.len() - 1;
    let after = w.ends[last] + TRAILING_GAP;
    let run = last_run::run_between(e, after, to);
    take_run(w, run, after, last);
}

// Fits the words of one phrase, of which there are some, in its span (fit.rs, fit_file); nothing is checked.
#[tactic(auto, unfolding(crate::specs::FitFile::fit_group))]
pub fn fit_group(
    starts: &mut [f64],
    ends: &mut [f64],
    letters: &[u32],
    e: Envelope<'_>,
    duration: f64,
    span: Times,
)
    requires { (0 < length starts.old)
        × ((length ends.old ≡ length starts.old)
        × ((length letters.now ≡ length starts.old) × (length starts.old ≤ 4096))) }
    ensures { let before = edges starts.old ends.old in
        let after = edges starts.new ends.new in
        after ≡ fit_group (loud_in e.entry) duration span letters.now before }
{
    let mut w = TimedWords {
        starts,
        ends,
        weights: letters,
    };
    fit_to_sound::fit_words(&mut w, e, js::js_min(duration, span.end));
    keep_inside(&mut w, span);
    take_trailing(&mut w, e, span.end);
    even::even_words(&mut w, span.end);
}

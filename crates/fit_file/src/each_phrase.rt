// Words fitted to their sound, phrase by phrase (fit.rs, the loop of fit_file).
ghost use Rattle.std.specs.Prelude.{◌≡◌, ◌≤◌, length};
ghost use Rattle.base.specs.Words.{edges};
ghost use Rattle.fit_file.specs.FitFile.{fit_phrase, fit_file};
ghost use Rattle.fit_file.specs.PhrasedWords.{edges_of, SameLists};
ghost use Rattle.envelope.specs.Frames.{loud_in};

use super::phrased_words::PhrasedWords;
use base::Times;
use envelope::view::Envelope;

// Fits the words of phrase p, which has this span, in the work space, and puts them back.
fn fit_phrase(w: &mut PhrasedWords<'_>, p: u32, e: Envelope<'_>, duration: f64, span: Times)
    requires { length w.old.starts.now ≤ 4096 }
    ensures same { SameLists w.old w.new }
    ensures fitted { edges_of w.new ≡ fit_phrase (loud_in e.entry) duration w.old.letters.now w.old.phrases.now span p (edges_of w.old) }
{
    // Lists, and not the struct: each phrase goes through all words, and lists that stand behind a reference are slower.
    let starts = &mut *w.starts;
    let ends = &mut *w.ends;
    let phrases = w.phrases;
    let work_starts = &mut *w.work_starts;
    let work_ends = &mut *w.work_ends;
    let work_letters = &mut *w.work_letters;
    let n = super::group::gather(
        starts,
        ends,
        w.letters,
        phrases,
        p,
        work_starts,
        work_ends,
        work_letters,
    );
    if n == 0 {
        return;
    }
    super::one_phrase::fit_group(
        &mut work_starts[0..n],
        &mut work_ends[0..n],
        &work_letters[0..n],
        e,
        duration,
        span,
    );
    super::group::put_back(starts, ends, phrases, p, work_starts, work_ends);
}

// Fits words to their sound, phrase by phrase (fit.rs, fit_file); nothing is checked.
pub fn fit_phrases(
    w: &mut PhrasedWords<'_>,
    span_starts: &[f64],
    span_ends: &[f64],
    e: Envelope<'_>,
    duration: f64,
)
    requires { (length w.old.starts.now ≤ 4096)
        × ((length span_ends.now ≡ length span_starts.now) × (length span_starts.now ≤ 4096)) }
    ensures same { SameLists w.old w.new }
    ensures fitted { let places = edges span_starts.now span_ends.now in
        edges_of w.new ≡ fit_file (loud_in e.entry) duration w.old.letters.now w.old.phrases.now places (edges_of w.old) }
{
    for p in 0..span_starts.len() {
        let span = Times {
            start: span_starts[p],
            end: span_ends[p],
        };
        fit_phrase(w, p as u32, e, duration, span);
    }
}

// The words of one phrase, taken out of a list into work space and put back (fit.rs, fit_file).
ghost use Rattle.std.specs.Prelude.{◌≡◌, List, ℕ, ◌+◌, ◌<◌, ◌≤◌, length};
ghost use Rattle.base.specs.Words.{Edges, edges};
ghost use Rattle.fit_file.specs.FitFile.{member_turn, members_of, put_edges};
ghost use Rattle.fit_file.specs.Parts.{Holds, Put};

// Copies word i behind the first n of the work space, where it is one of phrase p; how many there are then.
fn take_word(
    starts: &[f64],
    ends: &[f64],
    letters: &[u32],
    phrases: &[u32],
    p: u32,
    i: usize,
    n: usize,
    work_starts: &mut [f64],
    work_ends: &mut [f64],
    work_letters: &mut [u32],
) -> usize
    requires { (i < length starts.now)
        × ((i < length ends.now)
        × ((i < length letters.now)
        × ((i < length phrases.now)
        × ((n < length work_starts.old) × ((n < length work_ends.old) × (n < length work_letters.old)))))) }
    ensures { let before = edges starts.now ends.now in
        ((members : List ℕ)
        → Holds members before letters.now n work_starts.old work_ends.old work_letters.old
        → Holds (member_turn phrases.now p i members) before letters.now result
        work_starts.new work_ends.new work_letters.new)
        × (result ≤ n + 1) }
{
    if phrases[i] == p {
        work_starts[n] = starts[i];
        work_ends[n] = ends[i];
        work_letters[n] = letters[i];
        return n + 1;
    }
    n
}

// Copies the words of phrase p to the work space, in order; how many there are (fit.rs, fit_file's members and group).
pub fn gather(
    starts: &[f64],
    ends: &[f64],
    letters: &[u32],
    phrases: &[u32],
    p: u32,
    work_starts: &mut [f64],
    work_ends: &mut [f64],
    work_letters: &mut [u32],
) -> usize
    requires { (length ends.now ≡ length starts.now)
        × ((length letters.now ≡ length starts.now)
        × ((length phrases.now ≡ length starts.now)
        × ((length starts.now ≤ length work_starts.old)
        × ((length starts.now ≤ length work_ends.old) × (length starts.now ≤ length work_letters.old))))) }
    ensures { let before = edges starts.now ends.now in
        (Holds (members_of phrases.now p (length starts.now)) before
        letters.now result work_starts.new work_ends.new
        work_letters.new)
        × (result ≤ length starts.now) }
{
    let mut n = 0;
    for i in 0..starts.len() {
        n = take_word(
            starts,
            ends,
            letters,
            phrases,
            p,
            i,
            n,
            work_starts,
            work_ends,
            work_letters,
        );
    }
    n
}

// Puts word n of the work space back at place i, where that is one of phrase p; which word of the work space is next.
fn put_word(
    starts: &mut [f64],
    ends: &mut [f64],
    phrases: &[u32],
    p: u32,
    i: usize,
    n: usize,
    work_starts: &[f64],
    work_ends: &[f64],
) -> usize
    requires { (i < length starts.old)
        × ((i < length ends.old)
        × ((i < length phrases.now) × ((n < length work_starts.now) × (n < length work_ends.now)))) }
    ensures { let before = edges starts.old ends.old in
        let after = edges starts.new ends.new in
        ((members : List ℕ) (es : Edges)
        → Put members (edges work_starts.now work_ends.now) es n before
        → Put (member_turn phrases.now p i members) (edges work_starts.now work_ends.now) es result after)
        × (result ≤ n + 1) }
{
    if p == phrases[i] {
        starts[i] = work_starts[n];
        ends[i] = work_ends[n];
        return n + 1;
    }
    n
}

// Puts the words of the work space back at the places of phrase p, in order.
pub fn put_back(
    starts: &mut [f64],
    ends: &mut [f64],
    phrases: &[u32],
    p: u32,
    work_starts: &[f64],
    work_ends: &[f64],
)
    requires { (length ends.old ≡ length starts.old)
        × ((length phrases.now ≡ length starts.old)
        × ((length starts.old ≤ length work_starts.now) × (length starts.old ≤ length work_ends.now))) }
    ensures { let before = edges starts.old ends.old in
        let after = edges starts.new ends.new in
        after
        ≡ put_edges (members_of phrases.now p (length starts.old))
        (edges work_starts.now work_ends.now) before }
{
    let mut next = 0;
    for i in 0..starts.len() {
        next = put_word(starts, ends, phrases, p, i, next, work_starts, work_ends);
    }
}

// The tests of lists behind the refusals of document 01, and the order of all tests.
#![tactic(auto)]

ghost use Rattle.std.specs.Prelude.{◌≡◌};
ghost use Rattle.limits.specs.Limits.{bad_time, any, bad_edges, bad_letters, bad_counts, outside};
ghost use Rattle.limits.specs.Order.{when as when_of, also as also_of, chain as chain_of};

use base::Refusal;

pub mod sizes;
pub mod times;

// Which refusals apply, whatever comes first: 3, 4, 1, 2, 7, 6, 8.
#[derive(Clone, Copy)]
pub struct Applies {
    pub lengths: bool,
    pub counts: bool,
    pub times: bool,
    pub letters: bool,
    pub levels: bool,
    pub places: bool,
    pub cut: bool,
}

// No refusal applies.
const NONE: Applies = Applies {
    lengths: false,
    counts: false,
    times: false,
    letters: false,
    levels: false,
    places: false,
    cut: false,
};

// What applies where one test is made: its refusal, if the test says so; and no other.
pub fn when(applies: bool, why: Refusal) -> Applies
    ensures { result ≡ when_of applies why }
{
    match why {
        Refusal::Lengths => Applies {
            lengths: applies,
            ..NONE
        },
        Refusal::Counts => Applies {
            counts: applies,
            ..NONE
        },
        Refusal::Time => Applies {
            times: applies,
            ..NONE
        },
        Refusal::Letters => Applies {
            letters: applies,
            ..NONE
        },
        Refusal::Levels => Applies {
            levels: applies,
            ..NONE
        },
        Refusal::Places => Applies {
            places: applies,
            ..NONE
        },
        Refusal::Cut => Applies {
            cut: applies,
            ..NONE
        },
        Refusal::Layout => NONE,
    }
}

// What applies of one or of the other.
pub fn also(a: Applies, b: Applies) -> Applies
    ensures { result ≡ also_of a b }
{
    Applies {
        lengths: a.lengths | b.lengths,
        counts: a.counts | b.counts,
        times: a.times | b.times,
        letters: a.letters | b.letters,
        levels: a.levels | b.levels,
        places: a.places | b.places,
        cut: a.cut | b.cut,
    }
}

// The first refusal that applies.
pub fn chain(a: Applies) -> Result<(), Refusal>
    ensures { result ≡ chain_of a }
{
    if a.lengths {
        return Err(Refusal::Lengths);
    }
    if a.counts {
        return Err(Refusal::Counts);
    }
    if a.times {
        return Err(Refusal::Time);
    }
    if a.letters {
        return Err(Refusal::Letters);
    }
    if a.levels {
        return Err(Refusal::Levels);
    }
    if a.places {
        return Err(Refusal::Places);
    }
    if a.cut {
        return Err(Refusal::Cut);
    }
    Ok(())
}

// Whether some time of a list is not fine.
fn bad_times(list: &[f64]) -> bool
    ensures { result ≡ any bad_time list.now }
{
    list.iter().any(|t| times::bad_time(*t))
}

// A start or an end that is not fine, of words or of spans (refusal 1).
pub fn bad_edges(starts: &[f64], ends: &[f64]) -> bool
    ensures { result ≡ bad_edges starts.now ends.now }
{
    bad_times(starts) || bad_times(ends)
}

// Whether some number of a list is below the least or above the most.
fn any_outside(list: &[u32], least: u32, most: u32) -> bool
    ensures { result ≡ any (outside least most) list.now }
{
    list.iter().any(|n| *n < least || most < *n)
}

// Letters or units outside their range (refusal 2).
pub fn bad_letters(letters: &[u32], units: &[u32]) -> bool
    ensures { result ≡ bad_letters letters.now units.now }
{
    any_outside(letters, 1, 1000) || any_outside(units, 1, 10000)
}

// A span's word count above 4,096 (refusal 4).
pub fn bad_counts(counts: &[u32]) -> bool
    ensures { result ≡ bad_counts counts.now }
{
    any_outside(counts, 0, 4096)
}

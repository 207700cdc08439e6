// The tests of counts and lengths behind the refusals of document 01.
ghost use Rattle.std.specs.Prelude.{◌≡◌};
ghost use Rattle.limits.specs.Limits.{differ, many as many_of, many_samples, few_places, other_levels};

// More samples than are taken (refusal 4).
// Kept beside `many`: each promises its own limit, and one function that is handed the limit would promise no more than `<` does.
pub fn many_samples(n: usize) -> bool
    ensures { result ≡ many_samples n }
{
    57600000 < n
}

// More words, spans or words of a span than are taken (refusal 4).
pub fn many(n: usize) -> bool
    ensures { result ≡ many_of n }
{
    4096 < n
}

// Two lists that belong together and differ in length (refusal 3).
pub fn differ_in_length(a: usize, b: usize) -> bool
    ensures { result ≡ differ a b }
{
    a != b
}

// Fewer places than are needed (refusal 6).
pub fn few_places(places: usize, need: usize) -> bool
    ensures { result ≡ few_places places need }
{
    places < need
}

// A number of levels that isn't samples / 160, rounded down (refusal 7).
pub fn other_levels(levels: usize, samples: usize) -> bool
    ensures { result ≡ other_levels levels samples }
{
    levels != samples / base::HOP
}

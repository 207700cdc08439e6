// What every part shares: the refusals of document 01 with their numbers, a word's times, and the constants that more than one part uses.
#![tactic(auto)]

ghost use Rattle.std.specs.Prelude.{◌≡◌};
ghost use Rattle.base.specs.Refusals.{number as number_of};

pub mod span_list;
pub mod spans;
pub mod timed_words;
pub mod word_lists;
pub mod word_lists_mut;

// Samples in a frame.
pub const HOP: usize = 160;
// So many quiet frames in a row, 80 ms, end a sound.
pub const EDGE_QUIET: usize = 8;
// So many quiet frames in a row, 150 ms, end a word.
pub const END_SILENCE: usize = 15;
// An end that lies further past its sound, in seconds, is loose; a start so long after the word before ends, or longer, lies on no tail.
pub const LOOSE: f64 = 0.05;
// What a letter takes to say, in seconds, at the least.
pub const MIN_LETTER: f64 = 0.05;
// The sign's bit, among the bits of an f64.
pub const SIGN: u64 = 0x8000_0000_0000_0000;
// 2^52: the leading digit of a normal f64, which its bits leave out.
pub const HIDDEN: u64 = 0x10_0000_0000_0000;

// Why a call refuses.
#[derive(Clone, Copy, Debug, PartialEq, Eq)]
pub enum Refusal {
    // a time outside its range
    Time,
    // letters or units outside their range
    Letters,
    // lists that belong together differ in length
    Lengths,
    // too many samples, words or spans, or too large a span count
    Counts,
    // the job file breaks its layout
    Layout,
    // too few places for the result or work space
    Places,
    // the number of levels isn't samples / 160, rounded down
    Levels,
    // in the pieces, a cut not beyond its piece's start
    Cut,
}

// A word's two times, in seconds: they travel together.
#[derive(Clone, Copy)]
pub struct Times {
    pub start: f64,
    pub end: f64,
}

// Document 01's number of a refusal.
impl From<Refusal> for u32 {
    ghost from_gives = { λ r n. n ≡ number_of r };

    fn from(r: Refusal) -> u32 {
        match r {
            Refusal::Time => 1,
            Refusal::Letters => 2,
            Refusal::Lengths => 3,
            Refusal::Counts => 4,
            Refusal::Layout => 5,
            Refusal::Places => 6,
            Refusal::Levels => 7,
            Refusal::Cut => 8,
        }
    }
}

// The words that are fitted phrase by phrase, and the work space for the words of one phrase (fit.rs, fit_file).
ghost use Rattle.std.specs.Prelude.{◌≡◌, ◌≤◌, length};
ghost use Rattle.fit_file.specs.FitFile.{work_places};

// The words' starts and ends, in seconds, their letters and the numbers of their phrases: equally many.
// The work space has a place for each of them.
#[derive(Drop)]
pub struct PhrasedWords<'a> {
    pub starts: &'a mut [f64],
    pub ends: &'a mut [f64],
    pub letters: &'a [u32],
    pub phrases: &'a [u32],
    pub work_starts: &'a mut [f64],
    pub work_ends: &'a mut [f64],
    pub work_letters: &'a mut [u32],
    pub ghost alike: { (length ends.now ≡ length starts.now)
        × ((length letters.now ≡ length starts.now) × (length phrases.now ≡ length starts.now)) },
    pub ghost room: { length starts.now ≤ work_places (length work_starts.now) (length work_ends.now) (length work_letters.now) },
}

// The five lists of the words that a call gives back fewer of, or in another order (document 01).
ghost use Rattle.std.specs.Prelude.{length};
ghost use Rattle.base.specs.Words.{words};
ghost use Rattle.base.specs.Parts.{OneLength};

// The words' starts and ends, in seconds, and their letters, units and keys: equally many.
#[derive(Drop)]
pub struct WordListsMut<'a> {
    pub starts: &'a mut [f64],
    pub ends: &'a mut [f64],
    pub letters: &'a mut [u32],
    pub units: &'a mut [u32],
    pub keys: &'a mut [u32],
    pub ghost alike: { OneLength (length keys.now) (words starts.now ends.now letters.now units.now keys.now) },
}

impl<'a> WordListsMut<'a> {
    ghost use Rattle.std.specs.Prelude.{◌≡◌, ◌≤◌, ◌<◌, length};
    ghost use Rattle.base.specs.Words.{words_in_places};
    ghost use Rattle.base.specs.Parts.{first_words};
    ghost use Rattle.base.specs.WordListsMut.{words_of, SameLists};

    // Makes every place of the words from `count` on zero.
    pub fn clear(&mut self, count: usize)
        requires { count ≤ length self.old.keys.now }
        ensures same { SameLists self.old self.new }
        ensures as_many { length self.new.keys.now ≡ length self.old.keys.now }
        ensures cleared { words_of self.new ≡ words_in_places (length self.old.keys.now) (first_words count (words_of self.old)) }
    {
        self.starts[count..].fill(0.0);
        self.ends[count..].fill(0.0);
        self.letters[count..].fill(0);
        self.units[count..].fill(0);
        self.keys[count..].fill(0);
    }
}

// The five lists of a call's words, as its tests read them (document 01).

// The words' starts and ends, in seconds, and their letters, units and keys: they travel together.
#[derive(Clone, Copy)]
pub struct WordLists<'a> {
    pub starts: &'a [f64],
    pub ends: &'a [f64],
    pub letters: &'a [u32],
    pub units: &'a [u32],
    pub keys: &'a [u32],
}

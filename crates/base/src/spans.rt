// A list of spans: where each phrase lies, and how many words it has (document 01).

// The spans' starts and ends, in seconds, and their counts of words: they travel together.
#[derive(Clone, Copy)]
pub struct Spans<'a> {
    pub starts: &'a [f64],
    pub ends: &'a [f64],
    pub counts: &'a [u32],
}

// A text that is being written into lent places (document 01, "Tally, peak, job file").
ghost use Rattle.std.specs.Prelude.{◌≤◌, length};

// The places, and how many of them are written.
#[derive(Drop)]
pub struct Writer<'a> {
    pub bytes: &'a mut [u8],
    pub at: usize,
    pub ghost inside: { at ≤ length bytes.now },
}

// Frames of an envelope, from one to before another (document 01).
ghost use Rattle.std.specs.Prelude.{◌≤◌, ◌^◌};

// The first frame, and the one before which they end: no envelope has as many as 2^62.
#[derive(Clone, Copy)]
pub struct FrameRange {
    pub lo: usize,
    pub hi: usize,
    pub ghost few: { hi ≤ 2 ^ 62 },
}

// The sound of a recording, and the places of its levels (envelope.rs, envelope).
ghost use Rattle.std.specs.Prelude.{◌≡◌, ◌≤◌, ◌/◌, length};

// Samples, and a place for the level of each frame.
#[derive(Drop)]
pub struct Sound<'a> {
    pub samples: &'a [f32],
    pub levels: &'a mut [f64],
    pub ghost room: { length samples.now / 160 ≤ length levels.now },
}

// The samples of four neighbouring frames.
#[derive(Clone, Copy)]
pub struct FourFrames<'a> {
    pub samples: &'a [f32],
    pub ghost whole: { length samples.now ≡ 640 },
}

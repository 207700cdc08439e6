// The frames in which a cut is searched for (pieces.rs).
ghost use Rattle.std.specs.Prelude.{◌≡◌, length};

// The levels of 800 frames, and the floor under them.
#[derive(Clone, Copy)]
pub struct Window<'a> {
    pub levels: &'a [f64],
    pub floor: f64,
    pub ghost whole: { length levels.now ≡ 800 },
}

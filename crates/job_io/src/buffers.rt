// The places that a job is read into (document 01, "Tally, peak, job file").
ghost use Rattle.std.specs.Prelude.{◌≡◌, ◌≤◌, length};

// A job's table, the bytes of its words and spans, the bytes and the samples of one stretch, and the levels: room for the largest job.
#[derive(Drop)]
pub struct Buffers<'a> {
    pub table: &'a mut [u8],
    pub bodies: &'a mut [u8],
    pub bytes: &'a mut [u8],
    pub samples: &'a mut [f32],
    pub levels: &'a mut [f64],
    pub ghost room: { (length table.now ≡ 24)
        × ((15616 ≤ length bodies.now)
        × ((64000 ≤ length bytes.now) × ((16000 ≤ length samples.now) × (6000 ≤ length levels.now)))) },
}

// A job read from a reader, its samples a stretch at a time, of which only the levels are kept (document 01, "Tally, peak, job file").
// Nothing here decides what is printed: `job::judge` does, which is handed what came.
#![tactic(auto)]

ghost use Rattle.std.specs.Prelude.{◌≡◌, ◌+◌, ◌*◌, ◌/◌, ◌≤◌, ltb, length, take, OnOk};
ghost use Rattle.std.specs.Io.KnownBytes.{Consumes};
ghost use Rattle.job_io.specs.Answers.{Answers, Replies, Taken};
ghost use Rattle.job_io.specs.Buffers.{SamePlaces};
ghost use Rattle.job_io.specs.Parts.{heard_stretch, HeardFrom, FollowsFrom, ReceivedFrom};

pub mod buffers;

use base::HOP;
use buffers::Buffers;
use job_layout::{Numbers, SAMPLE, SPAN, TABLE, WORD};
use std::io;
use std::io::{Read, Write};

// Samples of a stretch: 100 frames.
const STRETCH: usize = 16000;

// How many bytes came, and whether the reader then gave no more. A struct: both hold in either case, so an enum would have both twice.
#[derive(Drop)]
pub struct Got {
    pub bytes: usize,
    pub ended: bool,
}

// The same of a whole job, and how many bytes its text has.
#[derive(Drop)]
pub struct Outcome {
    pub came: usize,
    pub ended: bool,
    pub text: usize,
}

// Reads until all places are filled or the input ends. A read that fails brings nothing, and counts as the end.
fn read<R: Read>(from: &mut R, bytes: &mut [u8]) -> Got
    ensures came { (result.bytes ≤ length bytes.old) × (result.ended ≡ ltb result.bytes (length bytes.old)) }
    ensures taken { Consumes (R.remaining from.old) (R.remaining from.new) (take result.bytes bytes.new) }
{
    let mut done = 0;
    while done < bytes.len() {
        let more = from.read(&mut bytes[done..]).unwrap_or(0);
        if more == 0 {
            return Got {
                bytes: done,
                ended: true,
            };
        }
        done += more;
    }
    Got {
        bytes: done,
        ended: false,
    }
}

// Reads a stretch of samples and, where all its bytes came, writes their levels.
#[tactic(auto, unfolding(crate::specs::Parts::heard_stretch))]
fn hear_stretch<R: Read>(
    from: &mut R,
    bytes: &mut [u8],
    samples: &mut [f32],
    levels: &mut [f64],
) -> Got
    requires { (length bytes.old ≡ 4 * length samples.old) × (length samples.old / 160 ≤ length levels.old) }
    ensures heard { (levels.new ≡ heard_stretch result.ended bytes.new (length samples.old) levels.old)
        × ((result.bytes ≤ length bytes.old) × (result.ended ≡ ltb result.bytes (length bytes.old))) }
    ensures taken { Consumes (R.remaining from.old) (R.remaining from.new) (take result.bytes bytes.new) }
{
    let got = read(from, bytes);
    if got.ended {
        return got;
    }
    job::hear(bytes, samples, levels);
    got
}

// Reads `count` samples, a stretch at a time, and writes the level of each frame to its place.
fn hear<R: Read>(
    from: &mut R,
    count: usize,
    bytes: &mut [u8],
    samples: &mut [f32],
    levels: &mut [f64],
) -> Got
    requires { (count ≤ 960159) × ((length levels.old ≡ count / 160) × ((64000 ≤ length bytes.old) × (16000 ≤ length samples.old))) }
    ensures { HeardFrom (R.remaining from.old) (R.remaining from.new) count result.bytes result.ended bytes.new levels.new }
{
    let mut came = 0;
    let mut done = 0;
    while done < count {
        let n = (count - done).min(STRETCH);
        let size = SAMPLE * n;
        let k = done / HOP;
        let got = hear_stretch(
            from,
            &mut bytes[0..size],
            &mut samples[0..n],
            &mut levels[k..],
        );
        came += got.bytes;
        if got.ended {
            return Got {
                bytes: came,
                ended: true,
            };
        }
        done += n;
    }
    Got {
        bytes: came,
        ended: false,
    }
}

// Reads words, spans and samples of a job whose table holds and, where they came, a byte more.
fn read_bodies<R: Read>(
    from: &mut R,
    numbers: Numbers,
    bodies: &mut [u8],
    bytes: &mut [u8],
    samples: &mut [f32],
    levels: &mut [f64],
) -> Got
    requires { (length bodies.old ≡ 28 * numbers.words + 20 * numbers.spans)
        × ((length bodies.old ≤ 15616)
        × ((numbers.samples ≤ 960159)
        × ((length levels.old ≡ numbers.samples / 160)
        × ((64000 ≤ length bytes.old) × (16000 ≤ length samples.old))))) }
    ensures { FollowsFrom (R.remaining from.old) (R.remaining from.new) numbers.samples result.bytes result.ended
        bodies.new bytes.new levels.new }
{
    let rows = read(from, bodies);
    if rows.ended {
        return rows;
    }
    let heard = hear(from, numbers.samples, bytes, samples, levels);
    let came = rows.bytes + heard.bytes;
    if heard.ended {
        return Got {
            bytes: came,
            ended: true,
        };
    }
    let mut more = [0u8; 1];
    let last = read(from, &mut more);
    Got {
        bytes: came + last.bytes,
        ended: last.ended,
    }
}

// Reads a job as far as it decides what is printed: its table, and what the table says that follows.
fn read_job<R: Read>(from: &mut R, b: &mut Buffers<'_>) -> Got
    ensures same { SamePlaces b.old b.new }
    ensures received { ReceivedFrom (R.remaining from.old) (R.remaining from.new) result.bytes result.ended
        b.new.table.now b.new.bodies.now b.new.bytes.now b.new.levels.now }
{
    let head = read(from, b.table);
    if head.ended {
        return head;
    }
    // The table is only read: lent on its own, it is known to stay.
    let table = &mut *b.table;
    let Ok(numbers) = job_layout::read_table(table) else {
        return head;
    };
    let size = WORD * numbers.words + SPAN * numbers.spans;
    let frames = numbers.samples / HOP;
    let rest = read_bodies(
        from,
        numbers,
        &mut b.bodies[0..size],
        b.bytes,
        b.samples,
        &mut b.levels[0..frames],
    );
    Got {
        bytes: head.bytes + rest.bytes,
        ended: rest.ended,
    }
}

// Reads a job, and writes what is printed for what came.
pub fn fit<R: Read>(from: &mut R, b: &mut Buffers<'_>, out: &mut [u8]) -> Outcome
    requires { 33088 ≤ length out.old }
    ensures same { SamePlaces b.old b.new }
    ensures answers { Answers result.came result.ended b.new.table.now b.new.bodies.now b.new.bytes.now b.new.levels.now (take result.text out.new)
        × (result.text ≤ length out.old) }
    ensures taken { Taken (R.remaining from.old) (R.remaining from.new) result.came b.new.table.now b.new.bodies.now b.new.levels.now }
{
    let got = read_job(from, b);
    // All three are only read: lent on their own, they are known to stay.
    let table = &mut *b.table;
    let bodies = &mut *b.bodies;
    let levels = &mut *b.levels;
    let text = job::judge(got.bytes, table, bodies, levels, out);
    Outcome {
        came: got.bytes,
        ended: got.ended,
        text,
    }
}

// Reads a job and writes what document 01 prints for it. A write that fails is the error that is returned.
pub fn reply<R: Read, W: Write>(from: &mut R, to: &mut W) -> io::Result<()>
    ensures { OnOk result (Replies (R.remaining from.old) (R.remaining from.new) (W.contents to.old) (W.contents to.new)) }
{
    let mut table = [0u8; 24];
    let mut bodies = [0u8; 15616];
    let mut bytes = [0u8; 64000];
    let mut samples = [0.0f32; 16000];
    let mut levels = [0.0; 6000];
    let mut out = [0u8; 33088];
    let mut buffers = Buffers {
        table: &mut table,
        bodies: &mut bodies,
        bytes: &mut bytes,
        samples: &mut samples,
        levels: &mut levels,
    };
    let n = fit(from, &mut buffers, &mut out).text;
    to.write_all(&out[0..n])
}

// Reads a job and prints what document 01 prints for it.
pub fn run_from<R: Read>(rt: &HostRuntime, from: &mut R) -> io::Result<()> {
    reply(from, &mut rt.stdout())
}

// Reads a job from standard input and prints what document 01 prints for it.
pub fn run(rt: &HostRuntime) -> io::Result<()> {
    run_from(rt, &mut rt.stdin())
}

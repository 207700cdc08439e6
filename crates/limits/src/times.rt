// The tests of a time and of a limit behind the refusals of document 01.
ghost use Rattle.std.specs.Prelude.{◌≡◌};
ghost use Rattle.limits.specs.Limits.{time_of, limit_of, bad_time, bad_limit};
ghost use Rattle.limits.specs.Parts.{no_time};

// Why a number is no time.
#[derive(Clone, Copy, Debug, PartialEq, Eq)]
pub enum NoTime {
    NotFinite,
    Outside,
}

// Why a number is no time that is not from -7,200 to 7,200.
fn no_time(t: f64) -> NoTime
    ensures { result ≡ no_time t }
{
    if t.is_finite() {
        return NoTime::Outside;
    }
    NoTime::NotFinite
}

// A time: finite, and from -7,200 to 7,200.
pub fn time_test(t: f64) -> Result<(), NoTime>
    ensures { result ≡ time_of t }
{
    if -7200.0 <= t && t <= 7200.0 {
        return Ok(());
    }
    Err(no_time(t))
}

// A limit for evening: a time, or +infinity.
pub fn limit_test(t: f64) -> Result<(), NoTime>
    ensures { result ≡ limit_of t }
{
    if 0.0 < t && !t.is_finite() {
        return Ok(());
    }
    time_test(t)
}

// Whether a time is not fine.
pub fn bad_time(t: f64) -> bool
    ensures { result ≡ bad_time t }
{
    time_test(t).is_err()
}

// Whether a limit for evening is not fine.
pub fn bad_limit(t: f64) -> bool
    ensures { result ≡ bad_limit t }
{
    limit_test(t).is_err()
}

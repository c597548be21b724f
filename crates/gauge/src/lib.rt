// How late the timers are that are handed out: smoothed and worst, both f64, and the light that they give.
#![tactic(auto)]

ghost use Rattle.std.specs.Prelude.{◌≡◌, not};
ghost use Rattle.queue.specs.Told.{told};
ghost use Rattle.gauge.specs.Gauge.{zeros, float_of, lateness, noted, AnswerClaim};
ghost use Rattle.gauge.specs.Light.{bad_limit, light_of, reading_of};
ghost use Rattle.gauge.specs.Bits.{bits_of};

use queue::Answer;
use refusals::Refusal;

// `any` is false until a timer was handed out: the two numbers alone cannot tell a gauge that met no timer from one that
// met lateness 0. No Option of two numbers: C lends these three as words, and `ngawdrelo_gauge_note` leaves them where nothing
// was handed out.
#[derive(Clone, Copy)]
pub struct Gauge {
    pub smoothed: f64,
    pub worst: f64,
    pub any: bool,
}

#[derive(Clone, Copy)]
pub enum Light {
    Calm,
    // the smoothed lateness
    Slow(f64),
    // the worst lateness
    Late(f64),
}

// The greatest lateness that is counted, in milliseconds.
pub const MOST: u64 = u32::MAX as u64;

// A gauge before any timer.
pub fn fresh() -> Gauge
    ensures { result ≡ zeros }
{
    Gauge {
        smoothed: 0.0,
        worst: 0.0,
        any: false,
    }
}

// Milliseconds, capped and converted.
#[tactic(auto, unfolding(crate::specs::Gauge::float_of))]
pub fn float_of(n: u64) -> f64
    ensures { result ≡ float_of n }
{
    let m = n.min(MOST);
    m as f64
}

// How late a timer is that is handed out at `time`: 0 where its deadline lies ahead.
pub fn lateness_of(time: u64, deadline: u64) -> f64
    ensures { result ≡ lateness time deadline }
{
    if time < deadline {
        return float_of(0);
    }
    float_of(time - deadline)
}

// The gauge after one lateness more.
#[tactic(auto, using(crate::proofs::laws::Floats::smoother_bits), unfolding(crate::specs::Gauge::noted))]
pub fn note(g: Gauge, late: f64) -> Gauge
    ensures { result ≡ noted g late }
{
    if !g.any {
        return Gauge {
            smoothed: late,
            worst: late,
            any: true,
        };
    }
    Gauge {
        smoothed: g.smoothed + (late - g.smoothed) / 8.0,
        worst: if g.worst < late { late } else { g.worst },
        any: true,
    }
}

// The gauge after what a poll at `time` answered: one lateness more if a timer was handed out,
// for the last time too, and else as it was.
pub fn note_answer(g: Gauge, time: u64, answer: Answer) -> Gauge
    ensures { AnswerClaim g time (told answer) result }
{
    match answer {
        Answer::Out(_key, _value, d, _moves, _drains) => note(g, lateness_of(time, d)),
        Answer::Last(_key, _value, d, _moves, _drains) => note(g, lateness_of(time, d)),
        _ => g,
    }
}

// Neither below zero nor not a number: what is not a number fails every comparison.
#[tactic(auto, using(crate::proofs::laws::Floats::limit_test))]
fn is_limit(x: f64) -> bool
    ensures { result ≡ not (bad_limit x) }
{
    0.0 <= x
}

// The light at two limits that are taken.
#[tactic(auto, unfolding(crate::specs::Light::light_of))]
fn light_at(g: Gauge, slow: f64, late: f64) -> Light
    ensures { result ≡ light_of g slow late }
{
    if !g.any {
        return Light::Calm;
    }
    let w = g.worst;
    let s = g.smoothed;
    if late <= w {
        return Light::Late(w);
    }
    if slow <= s {
        return Light::Slow(s);
    }
    Light::Calm
}

// What the gauge reads at the two limits: its light, or the number of the refusal. It hands back no gauge: the one that is
// read stays as it is.
#[tactic(auto, unfolding(crate::specs::Light::reading_of))]
pub fn read(g: Gauge, slow: f64, late: f64) -> Result<Light, u64>
    ensures { result ≡ reading_of g slow late }
{
    if !is_limit(slow) {
        return Err(Refusal::BadLimit as u64);
    }
    if !is_limit(late) {
        return Err(Refusal::BadLimit as u64);
    }
    Ok(light_at(g, slow, late))
}

// The bits of a float, and 0 for what is not a number.
#[tactic(auto, unfolding(crate::specs::Bits::bits_of))]
pub fn bits_of(x: f64) -> u64
    ensures { result ≡ bits_of x }
{
    if x == x {
        return f64::to_bits(x);
    }
    0
}

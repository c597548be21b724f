// How late are we running? Reads decimals, one a line: the slow limit, the late limit, and latenesses. When the input has
// ended it writes the light's word and the bits of smoothed and worst, or `bad`.
#![tactic(auto)]

ghost use Rattle.std.specs.Prelude.{◌≡◌, cond, [], ◌++◌, ◌+◌, ◌≤◌, ◌<◌, length};
ghost use Rattle.decimals.specs.Text.{bytes};
ghost use Rattle.lines.specs.Running.{ProgramRan};
ghost use Rattle.light.specs.Light.{word_of, digit_of, hex_of, line_of};
ghost use Rattle.light.specs.Steps.{AmountOf, Stepped};
ghost use Rattle.writing.specs.Writing.{Wrote};
ghost use Rattle.light.specs.Writing.{TextClaim};

use gauge::{Gauge, Light};
use hearing::{Heard, Hears};
use std::io::Stdin;

// Standard output and standard error.
const STDOUT_FILENO: i32 = 1;

const STDERR_FILENO: i32 = 2;

// What the lines so far have said.
#[derive(Clone, Copy)]
enum State {
    Nothing,
    // the slow limit
    Slow(u64),
    // the slow limit, the late limit, and the gauge after the latenesses
    Both(u64, u64, Gauge),
    Bad,
}

// A decimal as on the bench, at most 4,294,967,295.
fn amount(line: &[u8]) -> Option<u64>
    ensures { AmountOf line.now result }
{
    decimals::number(line).filter(|n| *n <= gauge::MOST)
}

// One line more.
fn step(line: &[u8], state: State) -> State
    ensures { Stepped line.now state result }
{
    let Some(n) = amount(line) else {
        return State::Bad;
    };
    match state {
        State::Nothing => State::Slow(n),
        State::Slow(slow) => State::Both(slow, n, gauge::fresh()),
        State::Both(slow, late, g) => State::Both(slow, late, gauge::note(g, gauge::float_of(n))),
        State::Bad => State::Bad,
    }
}

impl Hears for State {
    ghost Step = { Stepped };

    fn hear(&mut self, line: &[u8]) {
        *self = step(line, *self);
    }
}

// A hex digit, lower-case.
fn digit(d: u64) -> u8
    requires { d < 16 }
    ensures { result ≡ digit_of d }
{
    if d < 10 {
        return b'0' + d as u8;
    }
    b'a' - 10 + d as u8
}

// Writes the 16 hex digits of n into out from at on, and says where they end.
fn push_hex(out: &mut [u8], at: usize, n: u64) -> usize
    requires { at + 16 ≤ length out.old }
    ensures { Wrote out.old at (hex_of 16 n) result out.new }
{
    let mut p: u64 = 1 << 60;
    for k in 0..16 {
        out[at + k] = digit(n / p % 16);
        p = p / 16;
    }
    at + 16
}

// The same for the light's word, at the front.
fn push_word(out: &mut [u8], light: Light) -> usize
    requires { 5 ≤ length out.old }
    ensures { Wrote out.old 0 (word_of light ++ bytes " ") result out.new }
{
    match light {
        Light::Calm => writing::push(out, 0, b"calm "),
        Light::Slow(_s) => writing::push(out, 0, b"slow "),
        Light::Late(_w) => writing::push(out, 0, b"late "),
    }
}

// The same for the line of a light.
fn push_light(out: &mut [u8], light: Light, smoothed: u64, worst: u64) -> usize
    requires { 39 ≤ length out.old }
    ensures { Wrote out.old 0 (line_of light smoothed worst) result out.new }
{
    let a = push_word(out, light);
    let b = push_hex(out, a, smoothed);
    let c = writing::push(out, b, b" ");
    let d = push_hex(out, c, worst);
    writing::push(out, d, b"\n")
}

// Writes what the program says of all lines to the front of out, and says where it ends: at 0, with out unchanged, where
// there is no room.
fn text(out: &mut [u8], state: State) -> usize
    ensures { TextClaim state out.old result out.new }
{
    let State::Both(slow, late, g) = state else {
        return answering::write_bad(out, 0);
    };
    let Ok(light) = gauge::read(g, gauge::float_of(slow), gauge::float_of(late)) else {
        return answering::write_bad(out, 0);
    };
    if out.len() < 39 {
        return 0;
    }
    push_light(
        out,
        light,
        gauge::bits_of(g.smoothed),
        gauge::bits_of(g.worst),
    )
}

// Reads the input, and of each line its first 81 bytes.
fn read_all(from: &mut Stdin) -> (State, Heard)
    ensures { ProgramRan Stepped 81 [] State.Nothing result.1.bytes result.1.last.ended result.0 }
{
    let mut state = State::Nothing;
    let heard = hearing::read_all(&mut state, from);
    (state, heard)
}

// What is to be written: where the input could not be read to its end, lines are missing.
fn said(state: State, heard: Heard) -> State
    ensures { result ≡ cond heard.last.ended state State.Bad }
{
    if input::at_end(heard.last) {
        return state;
    }
    io::write_all(STDERR_FILENO, b"light: cannot read\n");
    State::Bad
}

fn main(rt: HostRuntime) {
    let (state, heard) = read_all(&mut rt.stdin());
    let mut out = [0; 81];
    let n = text(&mut out, said(state, heard));
    if !io::write_all(STDOUT_FILENO, &out[..n]) {
        io::write_all(STDERR_FILENO, b"light: cannot write\n");
    }
}

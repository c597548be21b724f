// Checks another machine's log. Reads its lines, and when the input has ended writes `ok`, or `bad` and the number of
// the first bad line.
#![tactic(auto)]

ghost use Rattle.std.specs.Prelude.{◌≡◌, [], length};
ghost use Rattle.lines.specs.Running.{ProgramRan};
ghost use Rattle.inspector.specs.Words.{Words, words, Inspected};
ghost use Rattle.inspect.specs.Text.{TextClaim, SaidClaim};

use hearing::{Heard, Hears};
use inspector::State;
use std::io::Stdin;
use std::marker::Model;

// Standard output and standard error.
const STDOUT_FILENO: i32 = 1;

const STDERR_FILENO: i32 = 2;

// What the lines have come to, and room for 1,024 keys and their deadlines: two arrays, as `inspect_line` takes two slices.
#[derive(Drop)]
struct Log {
    state: State,
    keys: [u64; 1024],
    deadlines: [u64; 1024],
}

impl Model for Log {
    ghost Value = { Words };

    ghost view = { λ l. words l.state l.keys l.deadlines };
}

impl Hears for Log {
    ghost Step = { Inspected };

    fn hear(&mut self, line: &[u8]) {
        self.state = inspector::inspect_line(self.state, &mut self.keys, &mut self.deadlines, line);
    }
}

// Inspects the lines of the input, each by its first 81 bytes.
fn read_all(log: &mut Log, from: &mut Stdin) -> Heard
    ensures { ProgramRan Inspected 81 [] (words (State.Good 0 0 0) log.old.keys log.old.deadlines) result.bytes result.last.ended log.new }
{
    log.state = inspector::fresh();
    hearing::read_all(log, from)
}

// Writes `bad`, the number and a newline to the front of out, and says where they end: at 0, with out unchanged, where
// there is no room.
fn say_bad(out: &mut [u8], n: u64) -> usize
    ensures { TextClaim (State.Bad n) out.old result out.new }
{
    let mut digits = [0; 20];
    let k = io::decimal(n, &mut digits);
    if out.len() < k + 5 {
        return 0;
    }
    let a = writing::push(out, 0, b"bad ");
    let b = writing::push(out, a, &digits[..k]);
    writing::push(out, b, b"\n")
}

// The same for what the lines have come to.
fn text(out: &mut [u8], state: State) -> usize
    ensures { TextClaim state out.old result out.new }
{
    let State::Bad(n) = state else {
        if out.len() < 3 {
            return 0;
        }
        return writing::push(out, 0, b"ok\n");
    };
    say_bad(out, n)
}

// The same for the whole run: where the input could not be read to its end, nothing is said of the log.
fn said(out: &mut [u8], heard: Heard, state: State) -> usize
    ensures { SaidClaim heard.last.ended state out.old result out.new }
{
    if !input::at_end(heard.last) {
        io::write_all(STDERR_FILENO, b"inspect: cannot read\n");
        return 0;
    }
    text(out, state)
}

fn main(rt: HostRuntime) {
    let mut log = Log {
        state: inspector::fresh(),
        keys: [0; 1024],
        deadlines: [0; 1024],
    };
    let heard = read_all(&mut log, &mut rt.stdin());
    let mut out = [0; 81];
    let n = said(&mut out, heard, log.state);
    if !io::write_all(STDOUT_FILENO, &out[..n]) {
        io::write_all(STDERR_FILENO, b"inspect: cannot write\n");
    }
}

// Reads an input to its end and hands its lines on, one after the other, to whatever takes them. What is read no contract
// can say, only how much.
#![tactic(auto)]

ghost use Rattle.std.specs.Prelude.{[], List, ℕ};
ghost use Rattle.lines.specs.Running.{Chunk, Closes, ProgramRan};

use input::Got;
use std::io::Stdin;

// What takes lines.
pub trait Hears {
    // what it becomes by a line
    ghost Step: { List ℕ → Self → Self → Type 0 };

    // One line more.
    fn hear(&mut self, line: &[u8])
        ensures { Step line.now self.old self.new };
}

// Hands on each line that ends in what was read, and keeps what is left: says how many bytes of a line are kept now. No `for`:
// how far a line goes `take_line` says.
fn take_chunk<H: Hears>(hears: &mut H, got: &[u8], line: &mut [u8], n: usize) -> usize
    ensures { Chunk H.Step got.now 0 line.old n hears.old line.new result hears.new }
{
    let mut i = 0;
    let mut k = n;
    while i < got.len() {
        let t = lines::take_line(got, i, line, k);
        i = t.next;
        k = t.kept;
        if t.ended {
            hears.hear(&line[..k]);
            k = 0;
        }
    }
    k
}

// The end: the last line, which may have no newline, if the input has ended and anything is kept of it.
fn finish<H: Hears>(hears: &mut H, got: Got, line: &[u8])
    ensures { Closes H.Step line.now hears.old got.ended hears.new }
{
    if !input::at_end(got) {
        return;
    }
    if line.len() == 0 {
        return;
    }
    hears.hear(line);
}

// How many bytes were read, and what the last read gave.
#[derive(Clone, Copy)]
pub struct Heard {
    pub bytes: usize,
    pub last: Got,
}

// Reads until the input ends, or cannot be read any more. Of a line it sees the first 81 bytes, since none that is known has
// more than 80. A proved loop has to end, so this one ends at 2^63 bytes; no run comes there.
pub fn read_all<H: Hears>(hears: &mut H, from: &mut Stdin) -> Heard
    ensures { ProgramRan H.Step 81 [] hears.old result.bytes result.last.ended hears.new }
{
    let mut buf = io::buffer();
    let mut line = [0; 81];
    let mut n = 0;
    let mut bytes = 0;
    while bytes < 1 << 63 {
        let got = input::more(from, &mut buf);
        let k = input::count(got);
        if k == 0 {
            finish(hears, got, &line[..n]);
            return Heard { bytes, last: got };
        }
        n = take_chunk(hears, &buf[..k], &mut line, n);
        bytes += k;
    }
    Heard {
        bytes,
        last: input::nothing(),
    }
}

// Answers to lines.
#![tactic(auto)]

ghost use Rattle.std.specs.Prelude.{◌≡◌, [], ◌+◌, ◌*◌, ◌≤◌, length};
ghost use Rattle.decimals.specs.Text.{Decimal, Spaced};
ghost use Rattle.answering.specs.Text.{put, PutClaim, WriteClaim, BadClaim};
ghost use Rattle.answering.specs.Parts.{Before};

use queue::Answer;

// Copies src into dst from at on.
fn copy(dst: &mut [u8], at: usize, src: &[u8])
    requires { at + length src.now ≤ length dst.old }
    ensures { dst.new ≡ put dst.old at src.now }
{
    dst[at..at + src.len()].copy_from_slice(src);
}

// Writes the decimal of n so that it ends before end, and says where it begins. The last digit comes first, so that nothing
// has to be counted beforehand.
fn decimal_before(buf: &mut [u8], end: usize, n: u64) -> usize
    requires { (20 ≤ end) × (end ≤ length buf.old) }
    ensures { Before (λ l. Decimal l n) buf.old end result buf.new }
{
    let mut i = end;
    let mut m = n;
    // no `for` over the places: it would need an answer for when they have run out, which they never do
    loop {
        i -= 1;
        buf[i] = b'0' + (m % 10) as u8;
        m /= 10;
        if m == 0 {
            return i;
        }
    }
}

// Writes numbers so that they end before end, each with a space in front, and says where they begin.
fn numbers_before(buf: &mut [u8], end: usize, numbers: &[u64]) -> usize
    requires { (21 * length numbers.now ≤ end) × (end ≤ length buf.old) }
    ensures { Before (λ l. Spaced l numbers.now) buf.old end result buf.new }
{
    let mut e = end;
    for i in (0..numbers.len()).rev() {
        e = decimal_before(buf, e, numbers[i]) - 1;
        buf[e] = b' ';
    }
    e
}

// Writes the line of a word, numbers and an ending into out from at on, and says where it ends. Whether out has room for it
// is known only once it is made, so it is made in a buffer of its own.
fn write_ended(out: &mut [u8], at: usize, word: &[u8], numbers: &[u64], ending: &[u8]) -> usize
    requires { (length word.now ≤ 6) × (length numbers.now ≤ 5) × (length ending.now ≤ 5) }
    ensures { PutClaim word.now numbers.now ending.now out.old at result out.new }
{
    // room for a word of six letters, five numbers of twenty digits with a space each, an ending of five letters, and the
    // newline, which is there already
    let mut buf = [b'\n'; 117];
    let stop = 116 - ending.len();
    copy(&mut buf, stop, ending);
    let e = numbers_before(&mut buf, stop, numbers);
    let start = e - word.len();
    copy(&mut buf, start, word);
    if out.len() < at {
        return at;
    }
    let size = 117 - start;
    if out.len() - at < size {
        return at;
    }
    copy(out, at, &buf[start..]);
    at + size
}

// The line of a word and numbers alone.
fn write_line(out: &mut [u8], at: usize, word: &[u8], numbers: &[u64]) -> usize
    requires { (length word.now ≤ 6) × (length numbers.now ≤ 5) }
    ensures { PutClaim word.now numbers.now [] out.old at result out.new }
{
    write_ended(out, at, word, numbers, &[])
}

// Writes the line of an answer into out from at on, and says where it ends: at at, with out unchanged, where there is no room.
// Out and at stay two parameters: a struct of both would hold out, into which those who call write themselves too.
pub fn write_answer(out: &mut [u8], at: usize, a: Answer) -> usize
    ensures { WriteClaim a out.old at result out.new }
{
    match a {
        Answer::Done => write_line(out, at, b"ok", &[]),
        Answer::Key(k) => write_line(out, at, b"key", &[k]),
        Answer::Gone(v, d) => write_line(out, at, b"gone", &[v, d]),
        Answer::Out(k, v, d, m, n) => write_line(out, at, b"out", &[k, v, d, m, n]),
        Answer::Last(k, v, d, m, n) => write_ended(out, at, b"out", &[k, v, d, m, n], b" last"),
        Answer::Nothing(m, n) => write_line(out, at, b"none", &[m, n]),
        Answer::NotYet(m, n) => write_line(out, at, b"yet", &[m, n]),
        Answer::Wake(t) => write_line(out, at, b"wake", &[t]),
        Answer::NoWake => write_line(out, at, b"wake -", &[]),
        Answer::Length(n) => write_line(out, at, b"len", &[n]),
        Answer::No(n) => write_line(out, at, b"no", &[n]),
    }
}

// The same for the line `bad`.
pub fn write_bad(out: &mut [u8], at: usize) -> usize
    ensures { BadClaim out.old at result out.new }
{
    write_line(out, at, b"bad", &[])
}

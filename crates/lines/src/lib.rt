// Lines, cut out of an input that comes in chunks. A caller lends a line's room: what is kept of a line that has not
// ended stands at its front, and of a longer line no more than it holds. So a line that fills it is too long for one
// byte less.
#![tactic(auto)]

ghost use Rattle.lines.specs.Taking.{TakeClaim};

// Where to go on in the chunk, how many bytes of the line are kept now, and whether the line has ended with them. No Option:
// the two numbers hold either way.
#[derive(Clone, Copy)]
pub struct Taken {
    pub next: usize,
    pub kept: usize,
    pub ended: bool,
}

// Takes the bytes of one line out of the chunk, from `from` on, and keeps them behind the n that are kept: to the
// newline, which is passed and not kept, or to the chunk's end.
pub fn take_line(got: &[u8], from: usize, line: &mut [u8], n: usize) -> Taken
    ensures { TakeClaim got.now from line.old n result.next result.kept result.ended line.new }
{
    let mut k = n.min(line.len());
    for i in from..got.len() {
        let b = got[i];
        if b == b'\n' {
            return Taken {
                next: i + 1,
                kept: k,
                ended: true,
            };
        }
        if k < line.len() {
            line[k] = b;
            k += 1;
        }
    }
    Taken {
        next: got.len(),
        kept: k,
        ended: false,
    }
}

// Text on its way to standard output. It waits in a room that is lent: what waits is written where the room is full, and at the
// end. Which bytes standard output takes no contract can say, but what waits behind each text is said.
#![tactic(auto)]

ghost use Rattle.std.specs.Prelude.{◌≤◌, length};

use std::fmt;

// Standard output.
const STDOUT_FILENO: i32 = 1;

// How many bytes wait at the front of a room, and whether all writes went well.
#[derive(Clone, Copy)]
pub struct Pen {
    pub at: usize,
    pub fine: bool,
}

// A room, and the pen that writes in it.
#[derive(Drop)]
pub struct Page<'a> {
    out: &'a mut [u8],
    pen: Pen,
    ghost within: { pen.at ≤ length out.now },
}

impl<'a> Page<'a> {
    ghost use Rattle.std.specs.Prelude.{◌≡◌, ◌∷◌, [], IsTrue, min};
    ghost use Rattle.std.specs.Fn.{FnOnceReturnsAtMut};
    ghost use Rattle.pen.specs.Pen.{Wrote, SameRoom, WrittenBy};

    // Goes on where a pen stands, behind the bytes of the room that wait already: behind all of them, if it counts more.
    pub fn behind(out: &'a mut [u8], pen: Pen) -> Page<'a>
        ensures same_room { result.out.ghost_name ≡ out.entry.ghost_name }
        ensures waits { (result.out.now ≡ out.old) × (result.pen.at ≡ min pen.at (length out.old)) }
        ensures fine { result.pen.fine ≡ pen.fine }
    {
        let at = pen.at.min(out.len());
        Page {
            out,
            pen: Pen { at, fine: pen.fine },
        }
    }

    // Where the pen stands, to go on there later: what waits stays in the room.
    pub fn into_pen(self) -> Pen
        ensures same { result ≡ self.entry.pen }
        ensures within { result.at ≤ length self.exit.0.now }
        ensures room { self.exit.0.now ≡ self.entry.out.now }
    {
        let Page { out: _, pen } = self;
        pen
    }

    // One byte more. What waits is written first where it fills the room; a room of no bytes takes none.
    fn byte(&mut self, b: u8)
        ensures { Wrote self.old (b ∷ []) self.new }
    {
        let Pen { at, fine } = self.pen;
        if at < self.out.len() {
            self.out[at] = b;
            self.pen = Pen { at: at + 1, fine };
            return;
        }
        let written = io::write_all(STDOUT_FILENO, self.out);
        if self.out.is_empty() {
            self.pen = Pen { at: 0, fine: false };
            return;
        }
        self.out[0] = b;
        self.pen = Pen {
            at: 1,
            fine: fine & written,
        };
    }

    // A text that the room may have no space for, byte by byte.
    #[cold]
    #[inline(never)]
    fn bytes(&mut self, text: &[u8])
        ensures { Wrote self.old text.now self.new }
    {
        for &b in text {
            self.byte(b);
        }
    }

    // Lends f a page whose pen stands where this one does, and goes on where f left it: in the same room, whatever f answers.
    pub fn write_by<F: FnOnce(&mut Page<'_>) -> fmt::Result>(&mut self, f: F)
        requires { F.IsAlwaysCallable f }
        ensures same { SameRoom self.old self.new }
        ensures called { WrittenBy (FnOnceReturnsAtMut F.FnOnce f) self.old self.new }
    {
        let mut page = Page {
            out: &mut *self.out,
            pen: self.pen,
        };
        // a page refuses nothing
        let _ = f(&mut page);
        let pen = page.into_pen();
        self.pen.at = pen.at.min(self.out.len());
        self.pen.fine &= pen.fine;
    }

    // Writes what waits. Says whether all writes went well.
    pub fn end(self) -> bool
        ensures failed { IsTrue result → IsTrue self.entry.pen.fine }
        ensures room { self.exit.0.now ≡ self.entry.out.now }
    {
        let Page { out, pen } = self;
        pen.fine & io::write_all(STDOUT_FILENO, &out[..pen.at])
    }
}

impl fmt::Write for Page<'_> {
    ghost use Rattle.std.specs.Prelude.{IsOk};
    ghost use Rattle.pen.specs.Pen.{Wrote};

    ghost write_str_gives = { Wrote };

    // Never refused: a write that fails stops nothing, and `end` tells of it.
    fn write_str(&mut self, s: &str) -> fmt::Result
        ensures answer { IsOk result }
        ensures ok { Wrote self.old s.now self.new }
    {
        let text = s.as_bytes();
        let at = self.pen.at;
        if text.len() <= self.out.len() - at {
            let end = at + text.len();
            self.out[at..end].copy_from_slice(text);
            self.pen.at = end;
        } else {
            self.bytes(text);
        }
        Ok(())
    }
}

// The bench with a journal: a line is done, what it writes to the journal is noted, and its answer is written behind
// the others. What is noted is to be kept before the answers are given (crate keeping).
#![tactic(auto)]

ghost use Rattle.records.specs.Words.{words};
ghost use Rattle.std.specs.Prelude.{◌≡◌, [], ◌∷◌, ◌+◌, ◌≤◌, ◌<◌, length};
ghost use Rattle.contracts.specs.Tells.{Tells};
ghost use Rattle.noting.specs.Means.{SaidClaim};
ghost use Rattle.noting.specs.Line.{desk, note_room, Fits, Does, LineClaim, NoteClaim, LastClaim};
ghost use Rattle.noting.specs.Feed.{stand, NextLine, FeedClaim};

use answering::{write_answer, write_bad};
use asking::read_line;
use delay_queue::Heads;
use entries::Step;
use wheel::Wheel;

// No step writes more bytes to the journal.
pub const NOTE_ROOM: usize = 36;

// Whether a patch is open, where what is noted ends, where the answers end, and the state and the heads after a line.
#[derive(Clone, Copy)]
pub struct After {
    pub patch: bool,
    pub noted: usize,
    pub at: usize,
    pub state: Wheel,
    pub heads: Heads,
}

// Whether there was room, and how it stands then: where there was none, nothing is done, and it stands as before, which is
// promised too, so that this is no Option.
#[derive(Clone, Copy)]
pub struct Noted {
    pub done: bool,
    pub after: After,
}

// Where to go on in the chunk, how many bytes of an unfinished line are kept, and the rest as after a line.
#[derive(Clone, Copy)]
pub struct Fed {
    pub next: usize,
    pub kept: usize,
    pub after: After,
}

// Whether the line is that byte alone. A pattern `[b'o']` in `step_in` tells its proof the length and not the byte.
fn is_byte(line: &[u8], b: u8) -> bool
    ensures { Tells (line.now ≡ b ∷ []) result }
{
    if line.len() != 1 {
        return false;
    }
    line[0] == b
}

// What a line says, which comes without its newline, if it says a step.
fn step_in(line: &[u8]) -> Option<Step>
    ensures { SaidClaim line.now result }
{
    if is_byte(line, b'o') {
        return Some(Step::Open);
    }
    if is_byte(line, b'e') {
        return Some(Step::Close);
    }
    Some(Step::Asks(read_line(line)?))
}

// Does a step. Its bytes are noted behind the others, and its answer is written behind the others.
fn do_step(
    step: Step,
    patch: bool,
    state: Wheel,
    heads: Heads,
    values: &mut [u64],
    deadlines: &mut [u64],
    nexts: &mut [u16],
    prevs: &mut [u16],
    turns: &mut [u64],
    marks: &mut [u16],
    notes: &mut [u8],
    noted: usize,
    out: &mut [u8],
    at: usize,
) -> After
    requires { noted + note_room ≤ length notes.old }
    ensures { Does
        step
        (desk
        patch
        (words state heads.heads values.old deadlines.old nexts.old prevs.old turns.old marks.old)
        notes.old
        noted
        out.old
        at)
        (desk
        result.patch
        (words result.state result.heads.heads values.new deadlines.new nexts.new prevs.new turns.new marks.new)
        notes.new
        result.noted
        out.new
        result.at) }
{
    let grid = delay_queue::heads_in(heads);
    let r = journal::act(
        patch, state, grid, values, deadlines, nexts, prevs, turns, marks, step,
    );
    let behind = writing::push(notes, noted, r.bytes.as_slice());
    let end = write_answer(out, at, r.answer);
    After {
        patch: r.patch,
        noted: behind,
        at: end,
        state: r.state,
        heads: r.heads,
    }
}

// A line where there is room: its step is done, or it is bad.
fn do_line(
    line: &[u8],
    patch: bool,
    state: Wheel,
    heads: Heads,
    values: &mut [u64],
    deadlines: &mut [u64],
    nexts: &mut [u16],
    prevs: &mut [u16],
    turns: &mut [u64],
    marks: &mut [u16],
    notes: &mut [u8],
    noted: usize,
    out: &mut [u8],
    at: usize,
) -> After
    requires { noted + note_room ≤ length notes.old }
    ensures { LineClaim
        line.now
        (desk
        patch
        (words state heads.heads values.old deadlines.old nexts.old prevs.old turns.old marks.old)
        notes.old
        noted
        out.old
        at)
        (desk
        result.patch
        (words result.state result.heads.heads values.new deadlines.new nexts.new prevs.new turns.new marks.new)
        notes.new
        result.noted
        out.new
        result.at) }
{
    match step_in(line) {
        Some(step) => do_step(
            step, patch, state, heads, values, deadlines, nexts, prevs, turns, marks, notes, noted,
            out, at,
        ),
        None => After {
            patch,
            noted,
            at: write_bad(out, at),
            state,
            heads,
        },
    }
}

// Whether there is room for what any step writes, in what has size, and for any answer, in what has len.
fn has_room(noted: usize, size: usize, at: usize, len: usize) -> bool
    ensures { Tells (Fits noted size at len) result }
{
    NOTE_ROOM <= size.saturating_sub(noted) && feed::ANSWER_ROOM <= len.saturating_sub(at)
}

// Does the line, which comes without its newline: what it writes to the journal is noted from `noted` on, and its
// answer is written into out from at on. Where there is no room for what any step writes or for any answer, nothing is
// done.
pub fn answer_line(
    line: &[u8],
    patch: bool,
    state: Wheel,
    heads: Heads,
    values: &mut [u64],
    deadlines: &mut [u64],
    nexts: &mut [u16],
    prevs: &mut [u16],
    turns: &mut [u64],
    marks: &mut [u16],
    notes: &mut [u8],
    noted: usize,
    out: &mut [u8],
    at: usize,
) -> Noted
    ensures { NoteClaim
        line.now
        (desk
        patch
        (words state heads.heads values.old deadlines.old nexts.old prevs.old turns.old marks.old)
        notes.old
        noted
        out.old
        at)
        result.done
        (desk
        result.after.patch
        (words result.after.state result.after.heads.heads values.new deadlines.new nexts.new prevs.new turns.new marks.new)
        notes.new
        result.after.noted
        out.new
        result.after.at) }
{
    if !has_room(noted, notes.len(), at, out.len()) {
        return Noted {
            done: false,
            after: After {
                patch,
                noted,
                at,
                state,
                heads,
            },
        };
    }
    let after = do_line(
        line, patch, state, heads, values, deadlines, nexts, prevs, turns, marks, notes, noted,
        out, at,
    );
    Noted { done: true, after }
}

// Takes one line out of the chunk and does it, or keeps it where it does not end in the chunk.
fn next_line(
    got: &[u8],
    from: usize,
    line: &mut [u8],
    n: usize,
    patch: bool,
    state: Wheel,
    heads: Heads,
    values: &mut [u64],
    deadlines: &mut [u64],
    nexts: &mut [u16],
    prevs: &mut [u16],
    turns: &mut [u64],
    marks: &mut [u16],
    notes: &mut [u8],
    noted: usize,
    out: &mut [u8],
    at: usize,
) -> Fed
    requires { noted + note_room ≤ length notes.old }
    ensures { NextLine
        got.now
        (stand
        from
        line.old
        n
        (desk
        patch
        (words state heads.heads values.old deadlines.old nexts.old prevs.old turns.old marks.old)
        notes.old
        noted
        out.old
        at))
        (stand
        result.next
        line.new
        result.kept
        (desk
        result.after.patch
        (words result.after.state result.after.heads.heads values.new deadlines.new nexts.new prevs.new turns.new marks.new)
        notes.new
        result.after.noted
        out.new
        result.after.at)) }
{
    let t = lines::take_line(got, from, line, n);
    if t.ended {
        let after = do_line(
            &line[..t.kept],
            patch,
            state,
            heads,
            values,
            deadlines,
            nexts,
            prevs,
            turns,
            marks,
            notes,
            noted,
            out,
            at,
        );
        return Fed {
            next: t.next,
            kept: 0,
            after,
        };
    }
    Fed {
        next: t.next,
        kept: t.kept,
        after: After {
            patch,
            noted,
            at,
            state,
            heads,
        },
    }
}

// Whether a byte of the chunk is left, which has len, and there is room.
fn goes(next: usize, len: usize, noted: usize, size: usize, at: usize, room: usize) -> bool
    ensures { Tells ((next < len) × Fits noted size at room) result }
{
    next < len && has_room(noted, size, at, room)
}

// Does the lines of the chunk from `from` on, of whose first line n bytes are kept already: what they write to the
// journal is noted from the front of notes on, and their answers are written from the front of out on, until the chunk
// is used up or there is no room left in one of the two.
pub fn answer_lines(
    got: &[u8],
    from: usize,
    line: &mut [u8],
    n: usize,
    patch: bool,
    state: Wheel,
    heads: Heads,
    values: &mut [u64],
    deadlines: &mut [u64],
    nexts: &mut [u16],
    prevs: &mut [u16],
    turns: &mut [u64],
    marks: &mut [u16],
    notes: &mut [u8],
    out: &mut [u8],
) -> Fed
    ensures { FeedClaim
        got.now
        (stand
        from
        line.old
        n
        (desk patch (words state heads.heads values.old deadlines.old nexts.old prevs.old turns.old marks.old) notes.old 0 out.old 0))
        (stand
        result.next
        line.new
        result.kept
        (desk
        result.after.patch
        (words result.after.state result.after.heads.heads values.new deadlines.new nexts.new prevs.new turns.new marks.new)
        notes.new
        result.after.noted
        out.new
        result.after.at)) }
{
    let mut i = from;
    let mut k = n;
    let mut after = After {
        patch,
        noted: 0,
        at: 0,
        state,
        heads,
    };
    // no `for`: where the next line begins, this one says
    while goes(i, got.len(), after.noted, notes.len(), after.at, out.len()) {
        let r = next_line(
            got,
            i,
            line,
            k,
            after.patch,
            after.state,
            after.heads,
            values,
            deadlines,
            nexts,
            prevs,
            turns,
            marks,
            notes,
            after.noted,
            out,
            after.at,
        );
        i = r.next;
        k = r.kept;
        after = r.after;
    }
    Fed {
        next: i,
        kept: k,
        after,
    }
}

// The input has ended: does what is kept, the last line, if it is anything.
pub fn answer_last(
    line: &[u8],
    patch: bool,
    state: Wheel,
    heads: Heads,
    values: &mut [u64],
    deadlines: &mut [u64],
    nexts: &mut [u16],
    prevs: &mut [u16],
    turns: &mut [u64],
    marks: &mut [u16],
    notes: &mut [u8],
    out: &mut [u8],
) -> Noted
    ensures { LastClaim
        line.now
        (desk patch (words state heads.heads values.old deadlines.old nexts.old prevs.old turns.old marks.old) notes.old 0 out.old 0)
        result.done
        (desk
        result.after.patch
        (words result.after.state result.after.heads.heads values.new deadlines.new nexts.new prevs.new turns.new marks.new)
        notes.new
        result.after.noted
        out.new
        result.after.at) }
{
    if line.len() == 0 {
        return Noted {
            done: true,
            after: After {
                patch,
                noted: 0,
                at: 0,
                state,
                heads,
            },
        };
    }
    answer_line(
        line, patch, state, heads, values, deadlines, nexts, prevs, turns, marks, notes, 0, out, 0,
    )
}

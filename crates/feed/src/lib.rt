// The bench over what was read: the lines of a chunk are answered one after the other, as far as the output has room.
#![tactic(auto)]

ghost use Rattle.std.specs.Prelude.{◌+◌, ◌≤◌, ◌<◌};
ghost use Rattle.contracts.specs.Tells.{Tells};
ghost use Rattle.records.specs.Words.{words, parts, holding, Sound};
ghost use Rattle.feed.specs.Feed.{answer_room, stand, FeedClaim, LastClaim};
ghost use Rattle.feed.specs.Parts.{NextLineKnown};

use bench::LineDone;
use delay_queue::Heads;
use wheel::Wheel;

// No answer has more bytes, so that one has room in these.
pub const ANSWER_ROOM: usize = 114;

// Where to go on in the chunk, how many bytes of an unfinished line are kept, where the answers end, and the state and
// the heads after them.
#[derive(Clone, Copy)]
pub struct Fed {
    pub next: usize,
    pub kept: usize,
    pub at: usize,
    pub state: Wheel,
    pub heads: Heads,
}

// Whether a byte of the chunk is left, which has len, and room for an answer in what has size.
fn goes(next: usize, len: usize, at: usize, size: usize) -> bool
    ensures { Tells ((next < len) × (at + answer_room ≤ size)) result }
{
    next < len && at <= size && ANSWER_ROOM <= size - at
}

// Where to go on in the chunk, how many bytes of an unfinished line are kept, where the answers end, elapsed and the poll in
// hand after them, and whether the store is sound then.
#[derive(Clone, Copy)]
struct FedParts {
    next: usize,
    kept: usize,
    at: usize,
    elapsed: u64,
    hand: u16,
    until: u64,
    sound: bool,
}

// Takes one line out of the chunk and answers it, or keeps it where it does not end in the chunk. The store is not judged.
fn next_line(
    limits: bool,
    got: &[u8],
    from: usize,
    line: &mut [u8],
    n: usize,
    sound: bool,
    elapsed: u64,
    occupied: &mut [u64; 6],
    tops: &mut [u16; 4],
    heads: &mut [[u16; 64]; 6],
    values: &mut [u64],
    deadlines: &mut [u64],
    nexts: &mut [u16],
    prevs: &mut [u16],
    turns: &mut [u64],
    marks: &mut [u16],
    hand: u16,
    until: u64,
    out: &mut [u8],
    at: usize,
) -> FedParts
    requires { Tells (Sound (holding hand until
        (parts elapsed occupied.old tops.old heads.old values.old deadlines.old nexts.old prevs.old turns.old marks.old))) sound }
    ensures { NextLineKnown
        limits
        got.now
        (stand from line.old n (holding hand until
        (parts elapsed occupied.old tops.old heads.old values.old deadlines.old nexts.old prevs.old turns.old marks.old))
        out.old at)
        (stand
        result.next
        line.new
        result.kept
        (holding result.hand result.until (parts result.elapsed occupied.new tops.new heads.new values.new deadlines.new nexts.new prevs.new turns.new marks.new))
        out.new
        result.at)
        result.sound }
{
    let t = lines::take_line(got, from, line, n);
    if t.ended {
        let done = bench::answer_known(
            limits,
            &line[..t.kept],
            sound,
            elapsed,
            occupied,
            tops,
            heads,
            values,
            deadlines,
            nexts,
            prevs,
            turns,
            marks,
            hand,
            until,
            out,
            at,
        );
        return FedParts {
            next: t.next,
            kept: 0,
            at: done.at,
            elapsed: done.elapsed,
            hand: done.hand,
            until: done.until,
            sound: done.sound,
        };
    }
    FedParts {
        next: t.next,
        kept: t.kept,
        at,
        elapsed,
        hand,
        until,
        sound,
    }
}

// Answers the lines of the chunk from `from` on, of whose first line n bytes are kept already, into out from its front
// on: until the chunk is used up or out has no room left for an answer. The store is not judged.
fn answer_parts(
    limits: bool,
    got: &[u8],
    from: usize,
    line: &mut [u8],
    n: usize,
    sound: bool,
    elapsed: u64,
    occupied: &mut [u64; 6],
    tops: &mut [u16; 4],
    heads: &mut [[u16; 64]; 6],
    values: &mut [u64],
    deadlines: &mut [u64],
    nexts: &mut [u16],
    prevs: &mut [u16],
    turns: &mut [u64],
    marks: &mut [u16],
    hand: u16,
    until: u64,
    out: &mut [u8],
) -> FedParts
    requires { Tells (Sound (holding hand until
        (parts elapsed occupied.old tops.old heads.old values.old deadlines.old nexts.old prevs.old turns.old marks.old))) sound }
    ensures { FeedClaim
        limits
        got.now
        (stand from line.old n (holding hand until
        (parts elapsed occupied.old tops.old heads.old values.old deadlines.old nexts.old prevs.old turns.old marks.old))
        out.old 0)
        (stand
        result.next
        line.new
        result.kept
        (holding result.hand result.until (parts result.elapsed occupied.new tops.new heads.new values.new deadlines.new nexts.new prevs.new turns.new marks.new))
        out.new
        result.at) }
{
    let mut fed = FedParts {
        next: from,
        kept: n,
        at: 0,
        elapsed,
        hand,
        until,
        sound,
    };
    // no index is counted: how far a turn comes `next_line` says
    while goes(fed.next, got.len(), fed.at, out.len()) {
        fed = next_line(
            limits,
            got,
            fed.next,
            line,
            fed.kept,
            fed.sound,
            fed.elapsed,
            occupied,
            tops,
            heads,
            values,
            deadlines,
            nexts,
            prevs,
            turns,
            marks,
            fed.hand,
            fed.until,
            out,
            fed.at,
        );
    }
    fed
}

// The same for a caller: the store is judged once, and then worked on without judging again.
pub fn answer_lines(
    limits: bool,
    got: &[u8],
    from: usize,
    line: &mut [u8],
    n: usize,
    state: Wheel,
    heads: Heads,
    values: &mut [u64],
    deadlines: &mut [u64],
    nexts: &mut [u16],
    prevs: &mut [u16],
    turns: &mut [u64],
    marks: &mut [u16],
    out: &mut [u8],
) -> Fed
    ensures { FeedClaim
        limits
        got.now
        (stand from line.old n (words state heads.heads values.old deadlines.old nexts.old prevs.old turns.old marks.old) out.old 0)
        (stand
        result.next
        line.new
        result.kept
        (words result.state result.heads.heads values.new deadlines.new nexts.new prevs.new turns.new marks.new)
        out.new
        result.at) }
{
    let mut here = delay_queue::heads_in(heads);
    let sound = judge::is_sound(state, here, values, deadlines, nexts, prevs, turns, marks);
    let mut occupied = state.occupied;
    let mut tops = places::tops_in(state.tops);
    let r = answer_parts(
        limits,
        got,
        from,
        line,
        n,
        sound,
        state.elapsed,
        &mut occupied,
        &mut tops,
        &mut here,
        values,
        deadlines,
        nexts,
        prevs,
        turns,
        marks,
        state.hand,
        state.until,
        out,
    );
    Fed {
        next: r.next,
        kept: r.kept,
        at: r.at,
        state: records::wheel_of(r.elapsed, occupied, tops, r.hand, r.until),
        heads: delay_queue::heads_of(here),
    }
}

// The input has ended: answers what is kept, the last line, if it is anything, into out from its front on.
pub fn answer_last(
    limits: bool,
    line: &[u8],
    state: Wheel,
    heads: Heads,
    values: &mut [u64],
    deadlines: &mut [u64],
    nexts: &mut [u16],
    prevs: &mut [u16],
    turns: &mut [u64],
    marks: &mut [u16],
    out: &mut [u8],
) -> LineDone
    ensures { LastClaim
        limits
        line.now
        (words state heads.heads values.old deadlines.old nexts.old prevs.old turns.old marks.old)
        out.old
        (words result.state result.heads.heads values.new deadlines.new nexts.new prevs.new turns.new marks.new)
        out.new
        result.at }
{
    if line.is_empty() {
        return LineDone {
            at: 0,
            state,
            heads,
        };
    }
    bench::answer_line(
        limits, line, state, heads, values, deadlines, nexts, prevs, turns, marks, out, 0,
    )
}

// The replay program: reads standard input to its end and answers each line with one. It can show the lists too, or know the
// lines of a poll with a limit: three programs of one line each, since the gate and who runs them call each by its name.
// What is read and written no contract can say: it reads a chunk, has `feed` answer its lines until it is used up, and
// writes all that was answered after each call, so that nothing waits while it reads. That is a `Serving` of the crate
// feed, whose law `all_answered` says what is written; of what the loop claims, its law `ran_answers`.
#![tactic(auto)]

ghost use Rattle.records.specs.Words.{words};
ghost use Rattle.std.specs.Prelude.{IsTrue, ◌≡◌, false, [], ◌≤◌, length, take};
ghost use Rattle.feed.specs.Feed.{answer_room};
ghost use Rattle.feed.specs.Serving.{LineAnswered};
ghost use Rattle.lines.specs.Running.{Passes, Closes, ProgramRan};

use delay_queue::Heads;
use input::Got;
use pen::{Page, Pen};
use std::io::Stdin;
use wheel::Wheel;

// Standard error. It is written by number, since `replay` and the others are lent no handle to print by.
const STDERR_FILENO: i32 = 2;

// Whether the lines of a poll with a limit are known, and whether each answer is followed by the contents of the lists.
#[derive(Clone, Copy)]
struct Program {
    limits: bool,
    lists: bool,
}

// How many bytes of an unfinished line are kept, the store, and whether all writes went well: no `Result`, since after a write
// that fails the rest of the chunk is answered all the same.
#[derive(Clone, Copy)]
struct Progress {
    kept: usize,
    state: Wheel,
    heads: Heads,
    fine: bool,
    ghost short: { kept ≤ 81 },
}

// Writes the answers, which are the first `at` bytes of out, and behind them the contents of the lists, where they are wanted
// and there is a store. Says whether all writes went well.
fn put(
    program: Program,
    out: &mut [u8],
    at: usize,
    state: Wheel,
    heads: Heads,
    nexts: &[u16],
) -> bool {
    let mut page = Page::behind(out, Pen { at, fine: true });
    // where nothing waits, no line has ended
    if program.lists && at != 0 && state.tops.n != 0 {
        let grid = delay_queue::heads_in(heads);
        contents::write_lists(&mut page, state, grid, nexts);
    }
    page.end()
}

// The room for answers: where the lists are shown, that for a single one, so that they are shown behind each.
fn room(program: Program) -> usize
    ensures lists { IsTrue program.lists → result ≡ answer_room }
    ensures many { program.lists ≡ false → result ≡ 4096 }
    ensures enough { (answer_room ≤ result) × (result ≤ 4096) }
{
    if program.lists {
        feed::ANSWER_ROOM
    } else {
        4096
    }
}

// Answers each line that ends in what was read, and writes the answers: which these are is claimed, not that they are
// written.
fn answer(
    program: Program,
    got: &[u8],
    line: &mut [u8; 81],
    run: &mut Progress,
    values: &mut [u64],
    deadlines: &mut [u64],
    nexts: &mut [u16],
    prevs: &mut [u16],
    turns: &mut [u64],
    marks: &mut [u16],
    out: &mut [u8; 4096],
)
    ensures { Passes
        (LineAnswered program.limits)
        (length line.old)
        (take run.old.kept line.old)
        got.now
        (words run.old.state run.old.heads.heads values.old deadlines.old nexts.old prevs.old turns.old marks.old)
        (take run.new.kept line.new)
        []
        (words run.new.state run.new.heads.heads values.new deadlines.new nexts.new prevs.new turns.new marks.new) }
{
    let most = room(program);
    let mut i: usize = 0;
    // no `for`: a call goes on where the one before it had no more room
    while i < got.len() {
        let r = feed::answer_lines(
            program.limits,
            got,
            i,
            line,
            run.kept,
            run.state,
            run.heads,
            values,
            deadlines,
            nexts,
            prevs,
            turns,
            marks,
            &mut out[..most],
        );
        i = r.next;
        run.kept = r.kept;
        run.state = r.state;
        run.heads = r.heads;
        run.fine &= put(program, out, r.at, r.state, r.heads, nexts);
    }
}

// The end: a last line that has no newline is answered, if the input has ended; where it cannot be read any more, a line
// that has not ended stays unanswered.
fn finish(
    program: Program,
    got: Got,
    line: &[u8; 81],
    run: &mut Progress,
    values: &mut [u64],
    deadlines: &mut [u64],
    nexts: &mut [u16],
    prevs: &mut [u16],
    turns: &mut [u64],
    marks: &mut [u16],
    out: &mut [u8; 4096],
)
    ensures { Closes
        (LineAnswered program.limits)
        (take run.old.kept line.now)
        (words run.old.state run.old.heads.heads values.old deadlines.old nexts.old prevs.old turns.old marks.old)
        got.ended
        (words run.new.state run.new.heads.heads values.new deadlines.new nexts.new prevs.new turns.new marks.new) }
{
    if !input::at_end(got) {
        io::write_all(STDERR_FILENO, b"replay: cannot read\n");
        return;
    }
    let kept = run.kept;
    let r = feed::answer_last(
        program.limits,
        &line[..kept],
        run.state,
        run.heads,
        values,
        deadlines,
        nexts,
        prevs,
        turns,
        marks,
        out,
    );
    run.kept = 0;
    run.state = r.state;
    run.heads = r.heads;
    run.fine &= put(program, out, r.at, r.state, r.heads, nexts);
}

// How many bytes were read, and what the last read gave.
#[derive(Clone, Copy)]
struct Outcome {
    bytes: usize,
    last: Got,
}

// Reads until the input ends, cannot be read any more, or an answer cannot be written. What each read gave is answered, and
// the last line: that is claimed, and not that it is written. A proved loop has to end, so this one ends at 2^63 bytes; no
// run comes there.
fn serve(
    from: &mut Stdin,
    program: Program,
    line: &mut [u8; 81],
    run: &mut Progress,
    values: &mut [u64],
    deadlines: &mut [u64],
    nexts: &mut [u16],
    prevs: &mut [u16],
    turns: &mut [u64],
    marks: &mut [u16],
    out: &mut [u8; 4096],
) -> Outcome
    ensures { ProgramRan
        (LineAnswered program.limits)
        (length line.old)
        (take run.old.kept line.old)
        (words run.old.state run.old.heads.heads values.old deadlines.old nexts.old prevs.old turns.old marks.old)
        result.bytes
        result.last.ended
        (words run.new.state run.new.heads.heads values.new deadlines.new nexts.new prevs.new turns.new marks.new) }
{
    let mut buf = io::buffer();
    let mut bytes: usize = 0;
    // no `for`: what is counted are the bytes, and a read gives as many as come
    while bytes < 9223372036854775808 {
        let got = input::more(from, &mut buf);
        let k = input::count(got);
        if k == 0 {
            finish(
                program, got, line, run, values, deadlines, nexts, prevs, turns, marks, out,
            );
            return Outcome { bytes, last: got };
        }
        answer(
            program,
            &buf[..k],
            line,
            run,
            values,
            deadlines,
            nexts,
            prevs,
            turns,
            marks,
            out,
        );
        bytes += k;
        if !run.fine {
            return Outcome { bytes, last: got };
        }
    }
    Outcome {
        bytes,
        last: input::nothing(),
    }
}

// Each line is answered with one.
pub fn replay(from: &mut Stdin) {
    with_room(
        from,
        Program {
            limits: false,
            lists: false,
        },
    );
}

// The same, and behind each answer stand the contents of the lists, once there is a store.
pub fn replay_lists(from: &mut Stdin) {
    with_room(
        from,
        Program {
            limits: false,
            lists: true,
        },
    );
}

// As `replay`, and the lines of a poll with a limit are known too.
pub fn replay_paused(from: &mut Stdin) {
    with_room(
        from,
        Program {
            limits: true,
            lists: false,
        },
    );
}

// Room for 1,024 records, with two words of values each.
fn with_room(from: &mut Stdin, program: Program) {
    let mut values = [0; 2048];
    let mut deadlines = [0; 1024];
    let mut nexts = [0; 1024];
    let mut prevs = [0; 1024];
    let mut turns = [0; 1024];
    let mut marks = [0; 1024];
    let mut line = [0; 81];
    let mut out = io::buffer();
    let mut run = Progress {
        kept: 0,
        state: delay_queue::no_store(),
        heads: delay_queue::heads_of([[links::NOBODY; 64]; 6]),
        fine: true,
    };
    serve(
        from,
        program,
        &mut line,
        &mut run,
        &mut values,
        &mut deadlines,
        &mut nexts,
        &mut prevs,
        &mut turns,
        &mut marks,
        &mut out,
    );
    if !run.fine {
        io::write_all(STDERR_FILENO, b"replay: cannot write\n");
    }
}

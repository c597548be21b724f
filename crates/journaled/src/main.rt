// The bench with a journal: `journaled FILE`. What FILE holds is recovered and told on standard error, and it is cut to the
// length kept; where it is damaged, what is cut off stands in FILE.damaged before. Then standard input is read to its end,
// and each line is answered with one. What a chunk's lines write to the journal is
// written to FILE and synced, one sync for all of them, and only then are their answers given; where that fails, none
// is, and the program ends. Which answers these are, and that the journal has grown by what the lines write to it, is
// claimed; not what is written.
#![tactic(auto)]

ghost use Rattle.records.specs.Words.{words};
ghost use Rattle.std.specs.Prelude.{◌≡◌, true, [], ◌+◌, ◌≤◌, ◌<◌, length, take};
ghost use Rattle.contracts.specs.Tells.{Tells};
ghost use Rattle.lines.specs.Running.{Passes, Closes, ProgramRan};
ghost use Rattle.noting.specs.Replies.{held, LineAnswered};

use delay_queue::Heads;
use entries::Ending;
use input::Got;
use keeping::{Keeping, Synced};
use recover::Seen;
use restore::Restored;
use std::env::Env;
use std::fmt;
use std::fs::{File, OpenFile, OpenOptions};
use std::io::{Stdin, Write};
use wheel::Wheel;

// Standard error.
const STDERR_FILENO: i32 = 2;

// How many bytes of an unfinished line are kept, whether a patch is open, the store, how far the journal is kept, and
// whether all went well: a flag, since the rest is handed back, and promised, where a write failed too.
#[derive(Clone, Copy)]
struct Progress<'a> {
    kept: usize,
    patch: bool,
    state: Wheel,
    heads: Heads,
    file: Synced<'a>,
    fine: bool,
}

// Keeps what is noted, and only then gives the answers.
fn settle<'a>(file: Synced<'a>, notes: &[u8], noted: usize, out: &[u8], at: usize) -> Keeping<'a>
    requires { (noted ≤ length notes.now) × (at ≤ length out.now) }
    ensures { result.fine ≡ true → result.kept.length ≡ file.entry.length + noted }
{
    let k = keeping::keep(file, &notes[..noted]);
    let kept = k.kept;
    if !k.fine {
        io::write_all(STDERR_FILENO, b"journaled: cannot write the journal\n");
        return Keeping { fine: false, kept };
    }
    if !keeping::say(file, noted, kept, &out[..at]) {
        io::write_all(STDERR_FILENO, b"journaled: cannot answer\n");
        return Keeping { fine: false, kept };
    }
    Keeping { fine: true, kept }
}

// Whether a byte of the chunk is left, which has len, and all went well.
fn goes(i: usize, len: usize, fine: bool) -> bool
    ensures { Tells ((i < len) × (fine ≡ true)) result }
{
    i < len && fine
}

// Does each line that ends in what was read, keeps what they write to the journal and answers them.
fn answer<'a>(
    got: &[u8],
    line: &mut [u8],
    run: Progress<'a>,
    values: &mut [u64],
    deadlines: &mut [u64],
    nexts: &mut [u16],
    prevs: &mut [u16],
    turns: &mut [u64],
    marks: &mut [u16],
    notes: &mut [u8],
    out: &mut [u8],
) -> Progress<'a>
    requires kept_bound { (run.kept ≤ 81) × (length line.old ≡ 81) }
    requires notes_len { (length notes.old ≡ 40000) × (length out.old ≡ 131072) }
    ensures kept_bound_2 { result.kept ≤ 81 }
    ensures passes { result.fine ≡ true →
        Passes
        LineAnswered
        (length line.old)
        (take run.entry.kept line.old)
        got.now
        (held
        run.entry.patch
        (words run.entry.state run.entry.heads.heads values.old deadlines.old nexts.old prevs.old turns.old marks.old)
        run.entry.file.length)
        (take result.kept line.new)
        []
        (held
        result.patch
        (words result.state result.heads.heads values.new deadlines.new nexts.new prevs.new turns.new marks.new)
        result.file.length) }
{
    let mut n = run.kept;
    let mut patch = run.patch;
    let mut state = run.state;
    let mut heads = run.heads;
    let mut file = run.file;
    let mut fine = true;
    let mut i: usize = 0;
    // no `for`: a call goes on where the one before it had no more room
    while goes(i, got.len(), fine) {
        let r = noting::answer_lines(
            got, i, line, n, patch, state, heads, values, deadlines, nexts, prevs, turns, marks,
            notes, out,
        );
        i = r.next;
        n = r.kept;
        patch = r.after.patch;
        state = r.after.state;
        heads = r.after.heads;
        let k = settle(file, notes, r.after.noted, out, r.after.at);
        file = k.kept;
        fine = k.fine;
    }
    Progress {
        kept: n,
        patch,
        state,
        heads,
        file,
        fine,
    }
}

// The end: a last line that has no newline is done and answered, if the input has ended; where it cannot be read any
// more, a line that has not ended stays unanswered.
fn finish<'a>(
    got: Got,
    line: &[u8],
    run: Progress<'a>,
    values: &mut [u64],
    deadlines: &mut [u64],
    nexts: &mut [u16],
    prevs: &mut [u16],
    turns: &mut [u64],
    marks: &mut [u16],
    notes: &mut [u8],
    out: &mut [u8],
) -> Progress<'a>
    requires kept_bound { (run.kept ≤ 81) × (length line.now ≡ 81) }
    requires notes_len { (length notes.old ≡ 40000) × (length out.old ≡ 131072) }
    ensures { result.fine ≡ true →
        Closes
        LineAnswered
        (take run.entry.kept line.now)
        (held
        run.entry.patch
        (words run.entry.state run.entry.heads.heads values.old deadlines.old nexts.old prevs.old turns.old marks.old)
        run.entry.file.length)
        got.ended
        (held
        result.patch
        (words result.state result.heads.heads values.new deadlines.new nexts.new prevs.new turns.new marks.new)
        result.file.length) }
{
    if !input::at_end(got) {
        io::write_all(STDERR_FILENO, b"journaled: cannot read\n");
        return run;
    }
    let r = noting::answer_last(
        &line[..run.kept],
        run.patch,
        run.state,
        run.heads,
        values,
        deadlines,
        nexts,
        prevs,
        turns,
        marks,
        notes,
        out,
    );
    let after = r.after;
    let k = settle(run.file, notes, after.noted, out, after.at);
    Progress {
        kept: 0,
        patch: after.patch,
        state: after.state,
        heads: after.heads,
        file: k.kept,
        fine: k.fine,
    }
}

// How many bytes were read, what the last read gave, and how it stands then.
#[derive(Clone, Copy)]
struct Outcome<'a> {
    bytes: usize,
    last: Got,
    run: Progress<'a>,
}

// Reads until the input ends, cannot be read any more, or something could not be kept or answered. Where all went well,
// what each read gave is done and answered, and the last line, and the journal has grown by what they write to it. A
// proved loop has to end, so this one ends at 2^63 bytes; no run comes there.
fn serve<'a>(
    from: &mut Stdin,
    line: &mut [u8],
    start: Progress<'a>,
    values: &mut [u64],
    deadlines: &mut [u64],
    nexts: &mut [u16],
    prevs: &mut [u16],
    turns: &mut [u64],
    marks: &mut [u16],
    notes: &mut [u8],
    out: &mut [u8],
) -> Outcome<'a>
    requires kept_bound { (start.kept ≤ 81) × (length line.old ≡ 81) }
    requires notes_len { (length notes.old ≡ 40000) × (length out.old ≡ 131072) }
    ensures { result.run.fine ≡ true →
        ProgramRan
        LineAnswered
        (length line.old)
        (take start.entry.kept line.old)
        (held
        start.entry.patch
        (words start.entry.state start.entry.heads.heads values.old deadlines.old nexts.old prevs.old turns.old marks.old)
        start.entry.file.length)
        result.bytes
        result.last.ended
        (held
        result.run.patch
        (words result.run.state result.run.heads.heads values.new deadlines.new nexts.new prevs.new turns.new marks.new)
        result.run.file.length) }
{
    let mut buf = io::buffer();
    let mut run = start;
    let mut bytes: usize = 0;
    // no `for`: what is counted are the bytes, and a read gives as many as come
    while bytes < 9223372036854775808 {
        let got = input::more(from, &mut buf);
        let k = input::count(got);
        if k == 0 {
            let end = finish(
                got, line, run, values, deadlines, nexts, prevs, turns, marks, notes, out,
            );
            return Outcome {
                bytes,
                last: got,
                run: end,
            };
        }
        run = answer(
            &buf[..k],
            line,
            run,
            values,
            deadlines,
            nexts,
            prevs,
            turns,
            marks,
            notes,
            out,
        );
        bytes += k;
        if !run.fine {
            return Outcome {
                bytes,
                last: got,
                run,
            };
        }
    }
    Outcome {
        bytes,
        last: input::nothing(),
        run,
    }
}

// The file, for reading and writing, if it is there.
fn open_update(rt: &HostRuntime, path: &str) -> std::io::Result<File> {
    let mut how = OpenOptions::new();
    how.read(true).write(true);
    how.open(rt, path)
}

// A new file, for writing. What is there already is never opened.
fn create(rt: &HostRuntime, path: &str) -> std::io::Result<File> {
    let mut how = OpenOptions::new();
    how.write(true).create_new(true);
    how.open(rt, path)
}

// The file, made where it is missing, for reading and writing.
fn opened(rt: &HostRuntime, path: &str) -> std::io::Result<File> {
    match open_update(rt, path) {
        Ok(file) => Ok(file),
        Err(_) => {
            create(rt, path)?;
            open_update(rt, path)
        }
    }
}

fn tell(text: &[u8]) {
    io::write_all(STDERR_FILENO, b"journaled: ");
    io::write_all(STDERR_FILENO, text);
}

fn tell_number(text: &[u8], x: u64) {
    tell(text);
    io::print_decimal(STDERR_FILENO, x);
}

fn end_line() {
    io::write_all(STDERR_FILENO, b"\n");
}

// The damage, if there is any.
fn tell_damage(ending: Ending) {
    match ending {
        Ending::Cut => {}
        Ending::Kind => tell(b"damage kind"),
        Ending::Zero => tell(b"damage zero"),
        Ending::Pair => tell(b"damage pair"),
        Ending::Gets(number) => tell_number(b"damage refused-", number),
    }
}

// What was found: the length kept, the damage and its place, and how many calls of a patch that is not closed are left out.
fn tell_found(seen: Seen) {
    tell_number(b"kept ", seen.kept as u64);
    end_line();
    if !recover::is_cut(seen.ending) {
        tell_damage(seen.ending);
        io::write_all(STDERR_FILENO, b" at ");
        io::print_decimal(STDERR_FILENO, seen.at as u64);
        end_line();
    }
    if seen.patch {
        tell_number(
            b"left out of a patch that is not closed: ",
            seen.left as u64,
        );
        end_line();
    }
}

// Copies the bytes of one file from `from` on to another and syncs that. Says whether all went well.
fn copied(file: &File, from: usize, to: &mut File) -> bool {
    let mut buf = io::large_buffer();
    let mut at = from;
    // no `for`: a read gives as many bytes as come
    loop {
        let got = input::more_from(file, at, &mut buf);
        let k = input::count(got);
        if k == 0 {
            if input::at_end(got) {
                return to.sync_all().is_ok();
            }
            return false;
        }
        if to.write_all(&buf[..k]).is_err() {
            return false;
        }
        at += k;
    }
}

// The bytes from `from` on go to a new file, which has the file's name with `.damaged` behind it.
fn saved(rt: &HostRuntime, file: &File, from: usize, name: &str) -> bool {
    let mut path = io::buffer();
    if 4088 < name.len() {
        return false;
    }
    let n = writing::push(&mut path, 0, name.as_bytes());
    let end = writing::push(&mut path, n, b".damaged");
    let beside = std::str::from_utf8(&path[..end]).unwrap_or("");
    match create(rt, beside) {
        Ok(mut to) => copied(file, from, &mut to),
        Err(_) => false,
    }
}

// Whether what is not kept may be cut off: it was a cut, or what is damaged is saved.
fn may_cut(rt: &HostRuntime, file: &File, seen: Seen, name: &str) -> bool {
    recover::is_cut(seen.ending) || saved(rt, file, seen.kept, name)
}

// Why the program does not begin.
#[derive(Drop)]
enum Trouble {
    CannotOpen,
    CannotRead,
    CannotSave,
    CannotCut,
}

// What is said of it.
impl fmt::Display for Trouble {
    fn fmt<W: fmt::Write>(&self, f: &mut fmt::Formatter<W>) -> fmt::Result {
        f.write_str(match self {
            Trouble::CannotOpen => "cannot open the file",
            Trouble::CannotRead => "cannot read the journal",
            Trouble::CannotSave => "cannot save what is damaged",
            Trouble::CannotCut => "cannot cut the journal",
        })
    }
}

// Recovers the file and tells what was found: the length kept, and the store after the steps that are, where what is not
// kept may be cut off.
fn recovered(
    rt: &HostRuntime,
    file: &File,
    name: &str,
    values: &mut [u64],
    deadlines: &mut [u64],
    nexts: &mut [u16],
    prevs: &mut [u16],
    turns: &mut [u64],
    marks: &mut [u16],
) -> Result<(usize, Restored), Trouble> {
    let s = restore::scan_file(file, values, deadlines, nexts, prevs, turns, marks);
    if !restore::is_whole(s) {
        return Err(Trouble::CannotRead);
    }
    let seen = s.seen;
    tell_found(seen);
    let found = restore::apply_file(
        file, seen.kept, values, deadlines, nexts, prevs, turns, marks,
    )
    .ok_or(Trouble::CannotRead)?;
    if !may_cut(rt, file, seen, name) {
        return Err(Trouble::CannotSave);
    }
    Ok((seen.kept, found))
}

// Answers standard input over the file. There is room for 65,535 records, with two words of values each. What the lines of
// one read write to the journal has room in the notes, so that one sync is enough: 2 bytes of input, as a clear, write 18;
// and their answers have room behind: 4 bytes of input, as a poll, are answered with 114 at most.
fn with_file(rt: &HostRuntime, file: &File, name: &str) -> Result<(), Trouble> {
    let mut values = [0; 131070];
    let mut deadlines = [0; 65535];
    let mut nexts = [0; 65535];
    let mut prevs = [0; 65535];
    let mut turns = [0; 65535];
    let mut marks = [0; 65535];
    let (kept, found) = recovered(
        rt,
        file,
        name,
        &mut values,
        &mut deadlines,
        &mut nexts,
        &mut prevs,
        &mut turns,
        &mut marks,
    )?;
    let k = keeping::cut(file, kept as u64);
    if !k.fine {
        return Err(Trouble::CannotCut);
    }
    let start = Progress {
        kept: 0,
        patch: false,
        state: found.state,
        heads: found.heads,
        file: k.kept,
        fine: true,
    };
    let mut line = [0; 81];
    let mut notes = [0; 40000];
    let mut out = [0; 131072];
    serve(
        &mut rt.stdin(),
        &mut line,
        start,
        &mut values,
        &mut deadlines,
        &mut nexts,
        &mut prevs,
        &mut turns,
        &mut marks,
        &mut notes,
        &mut out,
    );
    Ok(())
}

// A name that is no text in UTF-8 is that of no file. The file stays open until all is told.
fn main(rt: HostRuntime) {
    let mut name = io::buffer();
    let n = rt.arg(1, &mut name).unwrap_or(0);
    let path = std::str::from_utf8(&name[..n]).unwrap_or("");
    let file = opened(&rt, path);
    let done = match &file {
        Ok(file) => with_file(&rt, file, path),
        Err(_) => Err(Trouble::CannotOpen),
    };
    if let Err(trouble) = done {
        let _ = eprintln!(rt; "journaled: {trouble}");
    }
}

// A store as text: its free and retired records in runs, the lists where timers wait, and every record. What lies in the
// lists is tested here and not asked for, so a broken store has its text too.
#![tactic(auto)]

ghost use Rattle.std.specs.Prelude.{◌<◌};
ghost use Rattle.std.specs.Iterator.{IsFinite};
ghost use Rattle.pen.specs.Pen.{SameRoom};

use contents::Members;
use pen::Page;
use places::Tops;
use std::fmt::{self, Display, Write};
use wheel::Wheel;

// Record numbers from the first to the last: `a..b`.
#[derive(Clone, Copy)]
struct Run {
    first: u16,
    last: u16,
}

impl Display for Run {
    fn fmt<W: Write>(&self, f: &mut fmt::Formatter<W>) -> fmt::Result {
        let Run { first, last } = *self;
        write!(f, "{first}..{last}")
    }
}

// What a record holds beside its links, each with its name before it.
#[derive(Clone, Copy, PartialEq, Eq)]
struct Record {
    turn: u64,
    value: u64,
    deadline: u64,
    period: u64,
}

impl Display for Record {
    fn fmt<W: Write>(&self, f: &mut fmt::Formatter<W>) -> fmt::Result {
        let Record {
            turn,
            value,
            deadline,
            period,
        } = *self;
        write!(
            f,
            "turn {turn} value {value} deadline {deadline} period {period}"
        )
    }
}

// A name, and behind it the numbers in runs that rise by one.
fn write_runs<I: Iterator<Item = u16>>(page: &mut Page<'_>, name: &str, numbers: I) -> fmt::Result
    requires can { I.can_next numbers }
    requires ends { IsFinite (I.remaining numbers) }
{
    write!(page, "{name}")?;
    let mut open: Option<Run> = None;
    for i in numbers {
        let first = match open {
            Some(run) if run.last.checked_add(1) == Some(i) => run.first,
            Some(run) => {
                write!(page, " {run}")?;
                i
            }
            None => i,
        };
        open = Some(Run { first, last: i });
    }
    if let Some(run) = open {
        write!(page, " {run}")?;
    }
    writeln!(page)
}

// A name, and behind it the records of a list one by one, head first. Nothing where the list is empty.
fn write_list<N: Display + Drop>(
    page: &mut Page<'_>,
    name: N,
    nexts: &[u16],
    n: u16,
    head: u16,
) -> fmt::Result {
    if head == links::NOBODY {
        return Ok(());
    }
    write!(page, "{name}")?;
    for i in Members::of(nexts, n, head) {
        write!(page, " {i}")?;
    }
    writeln!(page)
}

// Where each record is: free, retired, expired, in a slot, or parked.
fn write_places(
    page: &mut Page<'_>,
    top: Tops,
    heads: &[[u16; 64]; 6],
    nexts: &[u16],
    marks: &[u16],
) -> fmt::Result {
    let n = top.n;
    let tops = places::tops_in(top);
    write_runs(page, "free", Members::of(nexts, n, top.free))?;
    let retired = (0..n).filter(|i| marks.get(*i as usize) == Some(&places::RETIRED));
    write_runs(page, "retired", retired)?;
    write_list(page, "expired", nexts, n, top.expired)?;
    for place in 0..places::SLOTS {
        let level = places::level_of(place);
        let slot = places::slot_of(place);
        let head = places::head_of(&tops, heads, place);
        write_list(page, format_args!("slot {level} {slot}"), nexts, n, head)?;
    }
    write_list(page, "parked", nexts, n, top.parking)
}

// What stands at k, and 0 where k is no index.
fn word_at(l: &[u64], k: usize) -> u64 {
    l.get(k).copied().unwrap_or(0)
}

// What record i holds.
fn record_at(values: &[u64], deadlines: &[u64], turns: &[u64], i: u16) -> Record {
    let k = i as usize;
    Record {
        turn: word_at(turns, k),
        value: word_at(values, 2 * k),
        deadline: word_at(deadlines, k),
        period: word_at(values, 2 * k + 1),
    }
}

// The line of the records of a run, which hold the same.
fn write_run(page: &mut Page<'_>, run: Run, held: Record)
    ensures { SameRoom page.old page.new }
{
    page.write_by(|p| writeln!(p, "rec {run} {held}"));
}

// Every record, one line a longest run of neighbours that hold the same.
fn write_records(page: &mut Page<'_>, values: &[u64], deadlines: &[u64], turns: &[u64], n: u16)
    requires { 0 < n }
    ensures { SameRoom page.old page.new }
{
    let mut first = 0;
    let mut held = record_at(values, deadlines, turns, 0);
    for i in 1..n {
        let next = record_at(values, deadlines, turns, i);
        if next != held {
            write_run(page, Run { first, last: i - 1 }, held);
            first = i;
            held = next;
        }
    }
    write_run(page, Run { first, last: n - 1 }, held);
}

// The poll in hand, where there is one: its now, and level and slot of the list that its next move is taken from, 6 and 0
// where that is the parking list.
fn write_hand(page: &mut Page<'_>, place: u16, until: u64) -> fmt::Result {
    if place == links::NOBODY {
        return Ok(());
    }
    let level = places::level_of(place);
    let slot = places::slot_of(place);
    writeln!(page, "hand {until} {level} {slot}")
}

// N and elapsed, the poll in hand and all that the store holds, or that there is none.
fn write_lines(
    page: &mut Page<'_>,
    state: Wheel,
    heads: &[[u16; 64]; 6],
    values: &[u64],
    deadlines: &[u64],
    nexts: &[u16],
    turns: &[u64],
    marks: &[u16],
) -> fmt::Result {
    let n = state.tops.n;
    if n == 0 {
        return writeln!(page, "store none");
    }
    let elapsed = state.elapsed;
    writeln!(page, "store {n} {elapsed}")?;
    write_hand(page, state.hand, state.until)?;
    write_places(page, state.tops, heads, nexts, marks)?;
    write_records(page, values, deadlines, turns, n);
    Ok(())
}

// The lines of a store, behind what waits in the page: `store none`, or N and elapsed, the poll in hand and all that it holds.
pub fn write_store(
    page: &mut Page<'_>,
    state: Wheel,
    heads: [[u16; 64]; 6],
    values: &[u64],
    deadlines: &[u64],
    nexts: &[u16],
    turns: &[u64],
    marks: &[u16],
)
    ensures { SameRoom page.old page.new }
{
    page.write_by(|p| write_lines(p, state, &heads, values, deadlines, nexts, turns, marks));
}

// A store with every word of it, so that a damage is one word changed, and one comparison tells what a call changed.
ghost use Rattle.std.specs.Prelude.{◌≤◌};

use delay_queue::{Call, heads_in};
use places::Tops;
use queue::Answer;
use std::fmt;
use wheel::Wheel;

const STDOUT_FILENO: i32 = 1;

// A store here has nine records at most, and the words of so many are kept.
const KEPT: usize = 12;

// Each slice lends the words of so many records: behind those that are kept stand those of retired ones.
const LENT: usize = 1025;

// Of values a record has two words, its value and its period, and of each other slice one.
const KEPT_PAIRS: usize = 24;

const PAIRS: usize = 2050;

// The key of record 0 at the last turn; those of the others follow.
const LAST_KEY: u64 = records::LAST_TURN << 16;

// The eight calls but format. None is refused by the store of nine, and all but next wake and length change words there.
const CALLS: &[Call] = &[
    Call::Insert(17, 300, 0),
    Call::Reset(LAST_KEY + 2, 400),
    Call::Remove(LAST_KEY + 3),
    Call::Poll(100),
    Call::PollSome(100, 0),
    Call::Wake,
    Call::Length,
    Call::Clear,
];

// A word of a store: of a slice, of the state, a level's occupied bits, the head of a level's slot.
#[derive(Clone, Copy)]
pub enum Word {
    Values(usize),
    Deadlines(usize),
    Nexts(usize),
    Prevs(usize),
    Turns(usize),
    Marks(usize),
    N,
    Expired,
    Free,
    Parking,
    Hand,
    Elapsed,
    Until,
    Occupied(usize),
    Heads(usize, usize),
}

impl fmt::Display for Word {
    fn fmt<W: fmt::Write>(&self, f: &mut fmt::Formatter<W>) -> fmt::Result {
        match self {
            Word::Values(i) => write!(f, "values[{i}]"),
            Word::Deadlines(i) => write!(f, "deadlines[{i}]"),
            Word::Nexts(i) => write!(f, "nexts[{i}]"),
            Word::Prevs(i) => write!(f, "prevs[{i}]"),
            Word::Turns(i) => write!(f, "turns[{i}]"),
            Word::Marks(i) => write!(f, "marks[{i}]"),
            Word::N => write!(f, "n"),
            Word::Expired => write!(f, "expired"),
            Word::Free => write!(f, "free"),
            Word::Parking => write!(f, "parking"),
            Word::Hand => write!(f, "hand"),
            Word::Elapsed => write!(f, "elapsed"),
            Word::Until => write!(f, "until"),
            Word::Occupied(level) => write!(f, "occupied[{level}]"),
            Word::Heads(level, slot) => write!(f, "heads[{level}][{slot}]"),
        }
    }
}

// A slice of a store.
#[derive(Clone, Copy, PartialEq, Eq)]
pub enum Slice {
    Values,
    Deadlines,
    Nexts,
    Prevs,
    Turns,
    Marks,
}

impl fmt::Display for Slice {
    fn fmt<W: fmt::Write>(&self, f: &mut fmt::Formatter<W>) -> fmt::Result {
        match self {
            Slice::Values => write!(f, "values"),
            Slice::Deadlines => write!(f, "deadlines"),
            Slice::Nexts => write!(f, "nexts"),
            Slice::Prevs => write!(f, "prevs"),
            Slice::Turns => write!(f, "turns"),
            Slice::Marks => write!(f, "marks"),
        }
    }
}

// The slice that is lent in part, if one is, and how many of its words.
type Part = Option<(Slice, usize)>;

// How many words of a slice are lent, which has so many.
fn lent(slice: Slice, part: Part, all: usize) -> usize
    ensures { result ≤ all }
{
    match part {
        Some((short, size)) if short == slice => size.min(all),
        _ => all,
    }
}

// How many calls answered no 2, and how many left every word as it was.
#[derive(Clone, Copy, Default)]
struct Seen {
    refused: u64,
    kept: u64,
}

impl Seen {
    // Both counts.
    fn plus(self, more: Seen) -> Self {
        Seen {
            refused: self.refused.saturating_add(more.refused),
            kept: self.kept.saturating_add(more.kept),
        }
    }
}

impl fmt::Display for Seen {
    fn fmt<W: fmt::Write>(&self, f: &mut fmt::Formatter<W>) -> fmt::Result {
        let refused = self.refused;
        let kept = self.kept;
        write!(f, "{refused} calls answered no 2, {kept} changed no word")
    }
}

// The low bits of a number, for a word of 16.
fn narrow(x: u64) -> u16 {
    (x % 65536) as u16
}

// A word of a slice; 0 past its end.
fn word_at<T: Copy + Into<u64>>(words: &[T], i: usize) -> u64 {
    if i < words.len() { words[i].into() } else { 0 }
}

// Nothing is written past its end.
fn put_at<T: Copy>(words: &mut [T], i: usize, x: T) {
    if i < words.len() {
        words[i] = x;
    }
}

// Lends the words that are kept, in front of the others.
fn lend<T: Copy>(words: &mut [T], kept: &[T]) {
    for i in 0..kept.len() {
        put_at(words, i, kept[i]);
    }
}

// Keeps them as they are now. Says whether one of those behind them is no longer x.
fn keep<T: Copy + PartialEq>(kept: &mut [T], words: &[T], x: T) -> bool {
    let mut changed = false;
    for i in 0..words.len() {
        if i < kept.len() {
            kept[i] = words[i];
        } else {
            changed |= words[i] != x;
        }
    }
    changed
}

// A store. Its state lies in parts, since a Wheel has no ==. The words behind those that are kept are retired records', as long as no
// call has changed one: the turn is the last, the links are nobody, and the mark says so. An image of them all would be ten times as
// large on the stack.
#[derive(Clone, Copy, PartialEq, Eq)]
pub struct Image {
    n: u16,
    expired: u16,
    free: u16,
    parking: u16,
    hand: u16,
    elapsed: u64,
    until: u64,
    occupied: [u64; 6],
    heads: [[u16; 64]; 6],
    values: [u64; KEPT_PAIRS],
    deadlines: [u64; KEPT],
    nexts: [u16; KEPT],
    prevs: [u16; KEPT],
    turns: [u64; KEPT],
    marks: [u16; KEPT],
    changed_behind: bool,
}

impl Image {
    // No store yet. The words that are kept are x.
    fn blank(x: u64) -> Self {
        Image {
            n: 0,
            expired: links::NOBODY,
            free: links::NOBODY,
            parking: links::NOBODY,
            hand: links::NOBODY,
            elapsed: 0,
            until: 0,
            occupied: [0; 6],
            heads: [[links::NOBODY; 64]; 6],
            values: [x; KEPT_PAIRS],
            deadlines: [x; KEPT],
            nexts: [narrow(x); KEPT],
            prevs: [narrow(x); KEPT],
            turns: [x; KEPT],
            marks: [narrow(x); KEPT],
            changed_behind: false,
        }
    }

    // A store of n free records. The words behind them are x.
    pub fn formatted(n: u64, turn: u64, x: u64) -> Self {
        Image::blank(x).after(&[Call::Format(n, turn)])
    }

    // The state, put together again.
    fn state(&self) -> Wheel {
        Wheel {
            elapsed: self.elapsed,
            occupied: self.occupied,
            tops: Tops {
                n: self.n,
                expired: self.expired,
                free: self.free,
                parking: self.parking,
            },
            hand: self.hand,
            until: self.until,
        }
    }

    // Asks the call, and says whether it answered no 2.
    fn ask(&mut self, part: Part, call: Call) -> bool {
        let mut values = [records::LAST_TURN; PAIRS];
        let mut deadlines = [records::LAST_TURN; LENT];
        let mut nexts = [links::NOBODY; LENT];
        let mut prevs = [links::NOBODY; LENT];
        let mut turns = [records::LAST_TURN; LENT];
        let mut marks = [places::RETIRED; LENT];
        lend(&mut values, &self.values);
        lend(&mut deadlines, &self.deadlines);
        lend(&mut nexts, &self.nexts);
        lend(&mut prevs, &self.prevs);
        lend(&mut turns, &self.turns);
        lend(&mut marks, &self.marks);
        let reply = any_call::ask(
            self.state(),
            self.heads,
            &mut values[..lent(Slice::Values, part, PAIRS)],
            &mut deadlines[..lent(Slice::Deadlines, part, LENT)],
            &mut nexts[..lent(Slice::Nexts, part, LENT)],
            &mut prevs[..lent(Slice::Prevs, part, LENT)],
            &mut turns[..lent(Slice::Turns, part, LENT)],
            &mut marks[..lent(Slice::Marks, part, LENT)],
            call,
        );
        self.changed_behind |= keep(&mut self.values, &values, records::LAST_TURN);
        self.changed_behind |= keep(&mut self.deadlines, &deadlines, records::LAST_TURN);
        self.changed_behind |= keep(&mut self.nexts, &nexts, links::NOBODY);
        self.changed_behind |= keep(&mut self.prevs, &prevs, links::NOBODY);
        self.changed_behind |= keep(&mut self.turns, &turns, records::LAST_TURN);
        self.changed_behind |= keep(&mut self.marks, &marks, places::RETIRED);
        let Wheel {
            elapsed,
            occupied,
            tops,
            hand,
            until,
        } = reply.state;
        self.n = tops.n;
        self.expired = tops.expired;
        self.free = tops.free;
        self.parking = tops.parking;
        self.hand = hand;
        self.elapsed = elapsed;
        self.until = until;
        self.occupied = occupied;
        self.heads = heads_in(reply.heads);
        matches!(reply.answer, Answer::No(2))
    }

    // The store after the calls.
    pub fn after(mut self, calls: &[Call]) -> Self {
        for &call in calls {
            self.ask(None, call);
        }
        self
    }

    // A word as it is.
    fn word(&self, word: Word) -> u64 {
        match word {
            Word::Values(i) => word_at(&self.values, i),
            Word::Deadlines(i) => word_at(&self.deadlines, i),
            Word::Nexts(i) => word_at(&self.nexts, i),
            Word::Prevs(i) => word_at(&self.prevs, i),
            Word::Turns(i) => word_at(&self.turns, i),
            Word::Marks(i) => word_at(&self.marks, i),
            Word::N => self.n.into(),
            Word::Expired => self.expired.into(),
            Word::Free => self.free.into(),
            Word::Parking => self.parking.into(),
            Word::Hand => self.hand.into(),
            Word::Elapsed => self.elapsed,
            Word::Until => self.until,
            Word::Occupied(level) => word_at(&self.occupied, level),
            Word::Heads(level, slot) if level < 6 => word_at(&self.heads[level], slot),
            Word::Heads(_, _) => 0,
        }
    }

    // A word changed.
    fn put(&mut self, word: Word, x: u64) {
        match word {
            Word::Values(i) => put_at(&mut self.values, i, x),
            Word::Deadlines(i) => put_at(&mut self.deadlines, i, x),
            Word::Nexts(i) => put_at(&mut self.nexts, i, narrow(x)),
            Word::Prevs(i) => put_at(&mut self.prevs, i, narrow(x)),
            Word::Turns(i) => put_at(&mut self.turns, i, x),
            Word::Marks(i) => put_at(&mut self.marks, i, narrow(x)),
            Word::N => self.n = narrow(x),
            Word::Expired => self.expired = narrow(x),
            Word::Free => self.free = narrow(x),
            Word::Parking => self.parking = narrow(x),
            Word::Hand => self.hand = narrow(x),
            Word::Elapsed => self.elapsed = x,
            Word::Until => self.until = x,
            Word::Occupied(level) => put_at(&mut self.occupied, level, x),
            Word::Heads(level, slot) if level < 6 => {
                put_at(&mut self.heads[level], slot, narrow(x));
            }
            Word::Heads(_, _) => {}
        }
    }

    // The store with the words of the table changed, each to what stands beside it.
    pub fn altered(mut self, table: &[(Word, u64)]) -> Self {
        for &(word, x) in table {
            self.put(word, x);
        }
        self
    }

    // Asks the call of the store as it is.
    fn ask_once(&self, part: Part, call: Call) -> Seen {
        let mut after = *self;
        let refused = after.ask(part, call);
        let kept = after == *self;
        Seen {
            refused: refused.into(),
            kept: kept.into(),
        }
    }

    // Asks the eight calls, each of the store as it is.
    fn ask_all(&self, part: Part) -> Seen {
        let mut seen = Seen::default();
        for &call in CALLS {
            seen = seen.plus(self.ask_once(part, call));
        }
        seen
    }

    // Asks them of the store with one word changed.
    fn ask_changed(&self, word: Word, x: u64) -> Seen {
        let mut changed = *self;
        changed.put(word, x);
        changed.ask_all(None)
    }

    // The store as it is.
    pub fn show_whole(&self) {
        let seen = self.ask_all(None);
        say(format_args!("nothing changed: {seen}"));
    }

    // The store with one word changed: for each row of the table in turn, the word and what it becomes.
    pub fn show_all(&self, table: &[(Word, u64)]) {
        for &(word, x) in table {
            let seen = self.ask_changed(word, x);
            say(format_args!("{word} := {x}: {seen}"));
        }
    }

    // The store with one slice lent in part: for each row of the table in turn, the slice and how many of its words.
    pub fn show_lent(&self, table: &[(Slice, usize)]) {
        for &(slice, size) in table {
            let seen = self.ask_all(Some((slice, size)));
            say(format_args!("{slice} of {size} words: {seen}"));
        }
    }

    // The store with one word raised by one, each of them in turn; nobody is followed by 0.
    pub fn show_each(&self, words: &[Word]) {
        let mut seen = Seen::default();
        for &word in words {
            let x = self.word(word).wrapping_add(1);
            seen = seen.plus(self.ask_changed(word, x));
        }
        if let Some(first) = words.first() {
            let count = words.len();
            say(format_args!("{first} and on, each of {count} one more: {seen}"));
        }
    }
}

// Standard output, by the kit's `io`: std's println! would make this program assume one C function more, os::c::rattle_errno.
#[derive(Clone, Copy)]
struct Out;

impl fmt::Write for Out {
    fn write_str(&mut self, s: &str) -> fmt::Result {
        if io::write_all(STDOUT_FILENO, s.as_bytes()) {
            Ok(())
        } else {
            Err(fmt::Error)
        }
    }
}

// A line. That nobody reads it is nothing to us.
pub fn say<D: fmt::Display + Drop>(line: D) {
    let _ = fmt::Write::writeln(&mut Out, line);
}

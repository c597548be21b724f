// Another machine's log, line by line. A line is a call with its answer, and is held to what the lines before it left
// pending.
#![tactic(auto)]

ghost use Rattle.std.specs.Prelude.{◌≡◌, ◌∷◌, ◌+◌, ◌-◌, ◌≤◌, ◌<◌, length, drop, Some};
ghost use Rattle.std.proofs.Math.Seq.{paste};
ghost use Rattle.contracts.specs.Tells.{Tells};
ghost use Rattle.inspector.specs.Words.{InspectClaim};
ghost use Rattle.inspector.specs.Parts.{Second, Holds, entry_of, ReadClaim};
ghost use Rattle.inspector.specs.Parts.{Placed, NoneDue, NoneBefore, Inside, Takes};

use splitting::First;

// A call with its answer: `i key when`, `s key when`, `r key`, `p now key`, `p now -`.
#[derive(Clone, Copy)]
pub enum Entry {
    Insert(u64, u64),
    Reset(u64, u64),
    Remove(u64),
    Out(u64, u64),
    Nothing(u64),
}

// What stands behind a line's letter.
#[derive(Clone, Copy)]
enum Fields {
    One(u64),
    Two(u64, u64),
    // a number, and then a dash
    Dash(u64),
}

// How many are pending, how many may be, and the clock. Keys and deadlines stay beside it, since C lends them as two slices
// (`ngawdrelo_inspect_line`).
#[derive(Clone, Copy)]
struct Pending {
    count: usize,
    room: usize,
    clock: u64,
}

// What the lines so far have come to. It is no Result: it goes back in with the next line, and a log that is bad has not failed.
#[derive(Clone, Copy)]
pub enum State {
    // all were right: how many are pending, the clock, and the number of lines
    Good(usize, u64, u64),
    // the number of the first that was bad
    Bad(u64),
}

// Before the first line.
pub fn fresh() -> State
    ensures { result ≡ State.Good 0 0 0 }
{
    State::Good(0, 0, 0)
}

// The number a, and behind it and a space either a number or a dash. What stands behind another space belongs to it, so
// that it is neither then.
fn second(a: u64, s: &[u8]) -> Option<Fields>
    ensures { Second a s.now result }
{
    match s {
        [b'-'] => Some(Fields::Dash(a)),
        _ => Some(Fields::Two(a, decimals::number(s)?)),
    }
}

// The fields that begin behind a space.
fn fields_behind(s: &[u8]) -> Option<Fields>
    ensures { Holds (32 ∷ s.now) result }
{
    match splitting::first_of(s)? {
        First::Only(a) => Some(Fields::One(a)),
        First::Then(a, f) => second(a, &s[f..]),
    }
}

// The fields that s is, each with one space in front.
fn fields_in(s: &[u8]) -> Option<Fields>
    ensures { Holds s.now result }
{
    match s {
        [b' ', rest @ ..] => fields_behind(rest),
        _ => None,
    }
}

// The entry with that letter and those fields, if there is one.
#[tactic(auto, unfolding(crate::specs::Parts::entry_of))]
fn entry_of(letter: u8, fields: Fields) -> Option<Entry>
    ensures { result ≡ entry_of letter (Some fields) }
{
    Some(match (letter, fields) {
        (b'r', Fields::One(x)) => Entry::Remove(x),
        (b'i', Fields::Two(x, y)) => Entry::Insert(x, y),
        (b's', Fields::Two(x, y)) => Entry::Reset(x, y),
        (b'p', Fields::Two(x, y)) => Entry::Out(x, y),
        (b'p', Fields::Dash(x)) => Entry::Nothing(x),
        _ => return None,
    })
}

// What a line says, which is handed over without its newline. The bench reads its lines by the same steps, as `asking` says.
fn read_line(line: &[u8]) -> Option<Entry>
    ensures { ReadClaim line.now result }
{
    if 80 < line.len() {
        return None;
    }
    let [letter, rest @ ..] = line else {
        return None;
    };
    entry_of(*letter, fields_in(rest)?)
}

// The first place of key among the first n. It is not inlined, since its loop may come to lie across two lines of code there, and
// takes half as long again then.
#[inline(never)]
fn place(keys: &[u64], n: usize, key: u64) -> Option<usize>
    requires { n ≤ length keys.now }
    ensures { Placed keys.now n key result }
{
    keys[..n].iter().position(|&k| k == key)
}

// Whether each of the first n deadlines is past t.
fn none_due(deadlines: &[u64], n: usize, t: u64) -> bool
    requires { n ≤ length deadlines.now }
    ensures { Tells (NoneDue deadlines.now n t) result }
{
    deadlines[..n].iter().all(|&d| t < d)
}

// Whether none of them is below d. One function for both tests would take the test as a closure, and say more of it than they say.
fn none_before(deadlines: &[u64], n: usize, d: u64) -> bool
    requires { n ≤ length deadlines.now }
    ensures { Tells (NoneBefore deadlines.now n d) result }
{
    deadlines[..n].iter().all(|&t| d <= t)
}

// Of the first n the one at i goes, and those behind it move up.
fn close(words: &mut [u64], i: usize, n: usize)
    requires { (i < n) × (n ≤ length words.old) }
    ensures { words.new ≡ paste words.old i (drop (i + 1) words.old) (n - 1 - i) }
{
    // std's slices have no copy_within, and a rotation would change the word behind
    for j in i..n - 1 {
        words[j] = words[j + 1];
    }
}

impl Pending {
    // Key is to come out at when.
    fn insert(self, keys: &mut [u64], deadlines: &mut [u64], key: u64, when: u64) -> Option<Pending>
        requires { Inside self keys.old deadlines.old }
        ensures { Takes self keys.old deadlines.old (Entry.Insert key when) result keys.new deadlines.new }
    {
        if place(keys, self.count, key).is_some() {
            return None;
        }
        if self.room <= self.count {
            return None;
        }
        keys[self.count] = key;
        deadlines[self.count] = when.max(self.clock);
        Some(Pending {
            count: self.count + 1,
            ..self
        })
    }

    // Key is to come out at when, and no more when it was to.
    fn reset(self, keys: &[u64], deadlines: &mut [u64], key: u64, when: u64) -> Option<Pending>
        requires { Inside self keys.now deadlines.old }
        ensures { Takes self keys.now deadlines.old (Entry.Reset key when) result keys.now deadlines.new }
    {
        let i = place(keys, self.count, key)?;
        deadlines[i] = when.max(self.clock);
        Some(self)
    }

    // Key is not to come out.
    fn remove(self, keys: &mut [u64], deadlines: &mut [u64], key: u64) -> Option<Pending>
        requires { Inside self keys.old deadlines.old }
        ensures { Takes self keys.old deadlines.old (Entry.Remove key) result keys.new deadlines.new }
    {
        let at = place(keys, self.count, key)?;
        close(keys, at, self.count);
        close(deadlines, at, self.count);
        Some(Pending {
            count: self.count - 1,
            ..self
        })
    }

    // A poll that handed out key: none of the others is due before it.
    fn hand_out(
        self,
        keys: &mut [u64],
        deadlines: &mut [u64],
        time: u64,
        key: u64,
    ) -> Option<Pending>
        requires { Inside self keys.old deadlines.old }
        ensures { Takes self keys.old deadlines.old (Entry.Out time key) result keys.new deadlines.new }
    {
        let i = place(keys, self.count, key)?;
        let d = deadlines[i];
        if time < d {
            return None;
        }
        if !none_before(deadlines, self.count, d) {
            return None;
        }
        close(keys, i, self.count);
        close(deadlines, i, self.count);
        Some(Pending {
            count: self.count - 1,
            ..self
        })
    }

    // A poll that handed out nothing.
    fn hand_none(self, keys: &[u64], deadlines: &[u64], time: u64) -> Option<Pending>
        requires { Inside self keys.now deadlines.now }
        ensures { Takes self keys.now deadlines.now (Entry.Nothing time) result keys.now deadlines.now }
    {
        if !none_due(deadlines, self.count, time) {
            return None;
        }
        Some(Pending {
            clock: self.clock.max(time),
            ..self
        })
    }

    // One entry more.
    fn take(self, keys: &mut [u64], deadlines: &mut [u64], entry: Entry) -> Option<Pending>
        requires { Inside self keys.old deadlines.old }
        ensures { Takes self keys.old deadlines.old entry result keys.new deadlines.new }
    {
        match entry {
            Entry::Insert(key, when) => self.insert(keys, deadlines, key, when),
            Entry::Reset(key, when) => self.reset(keys, deadlines, key, when),
            Entry::Remove(key) => self.remove(keys, deadlines, key),
            Entry::Out(time, key) => self.hand_out(keys, deadlines, time, key),
            Entry::Nothing(time) => self.hand_none(keys, deadlines, time),
        }
    }
}

// One line more, which is handed over without its newline. Keys and deadlines, of 1,024 words or more each, are the
// inspector's own: they are lent from line to line, and what they hold before the first is no matter.
pub fn inspect_line(state: State, keys: &mut [u64], deadlines: &mut [u64], line: &[u8]) -> State
    ensures { InspectClaim state keys.old deadlines.old line.now result keys.new deadlines.new }
{
    let State::Good(count, clock, lines) = state else {
        return state;
    };
    // no log has so many lines that a u64 does not count them
    let number = lines.saturating_add(1);
    let Some(entry) = read_line(line) else {
        return State::Bad(number);
    };
    let room = keys.len().min(deadlines.len()).min(1024);
    let pending = Pending {
        count: count.min(room),
        room,
        clock,
    };
    match pending.take(keys, deadlines, entry) {
        Some(p) => State::Good(p.count, p.clock, number),
        None => State::Bad(number),
    }
}

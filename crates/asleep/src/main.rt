// An arm that sleeps from wake to wake: it asks when to look, sleeps until then, and looks. Nothing is lost by that, nothing comes
// out late, and after at most as many looks as the heights and the timers come to nothing is pending (`asleep`, `on_time` and
// `wakes_all` of crate promises). How a store is lent is shown by `morning`.
// To be copied too, so it stands alone.
#![tactic(auto)]

ghost use Rattle.std.specs.Prelude.{◌≤◌};

use delay_queue::{Reply, format, heads_in, insert, next_wake, no_store, poll};
use queue::Answer;
use wheel::Wheel;

const STDOUT_FILENO: i32 = 1;

// Room for so many records.
const N: usize = 8;

// A value and a period for each record.
const PAIRS: usize = 16;

// A block is 2^36 ms. This one ends six hours into the morning.
const BLOCK: u64 = 1 << 36;

const START: u64 = BLOCK - 21_600_000;

// Times of one lap of level 0 are the same above so many bits, and so of each level up; those of one block above the last.
const BITS: [u32; 6] = [6, 12, 18, 24, 30, 36];

// When the timers of this morning are due: one at once, others from 7 ms to five hours on, and one in the next block.
const GATE: u64 = START;

const VALVE: u64 = START + 7;

const TEAT: u64 = START + 1_000;

const CUT: u64 = START + 90_000;

const RINSE: u64 = START + 420_000;

const TANK: u64 = START + 18_000_000;

const FILTER: u64 = START + 28_800_000;

// In the order in which they are set. The value of the first is 1.
const TIMERS: [u64; 7] = [FILTER, RINSE, VALVE, TANK, CUT, TEAT, GATE];

// What we keep between calls: the last state and heads, and the arrays.
#[derive(Drop)]
struct Store {
    state: Wheel,
    heads: [[u16; 64]; 6],
    values: [u64; PAIRS],
    deadlines: [u64; N],
    nexts: [u16; N],
    prevs: [u16; N],
    turns: [u64; N],
    marks: [u16; N],
}

impl Store {
    // Every record is free.
    fn new() -> Self {
        let mut store = Store {
            state: no_store(),
            heads: [[links::NOBODY; 64]; 6],
            values: [0; PAIRS],
            deadlines: [0; N],
            nexts: [0; N],
            prevs: [0; N],
            turns: [0; N],
            marks: [0; N],
        };
        let made = format(
            store.state,
            store.heads,
            &mut store.values,
            &mut store.deadlines,
            &mut store.nexts,
            &mut store.prevs,
            &mut store.turns,
            &mut store.marks,
            N as u64,
            1,
        );
        store.keep(made);
        store
    }

    // What a call handed back goes into the next: the state and the slot heads.
    fn keep(&mut self, reply: Reply) -> Answer {
        self.state = reply.state;
        self.heads = heads_in(reply.heads);
        reply.answer
    }

    // Sets a timer, which does not repeat.
    fn insert(&mut self, value: u64, at: u64) -> Answer {
        let reply = insert(
            self.state,
            self.heads,
            &mut self.values,
            &mut self.deadlines,
            &mut self.nexts,
            &mut self.prevs,
            &self.turns,
            &mut self.marks,
            value,
            at,
            0,
        );
        self.keep(reply)
    }

    // Takes out a timer that is due.
    fn poll(&mut self, now: u64) -> Answer {
        let reply = poll(
            self.state,
            self.heads,
            &self.values,
            &mut self.deadlines,
            &mut self.nexts,
            &mut self.prevs,
            &mut self.turns,
            &mut self.marks,
            now,
        );
        self.keep(reply)
    }

    // When to look next; nothing where nothing is pending.
    fn wake(&self) -> Option<u64> {
        let answer = next_wake(
            self.state,
            self.heads,
            &self.values,
            &self.deadlines,
            &self.nexts,
            &self.prevs,
            &self.turns,
            &self.marks,
        );
        match answer {
            Answer::Wake(time) => Some(time),
            _ => None,
        }
    }
}

fn say(words: &[u8]) {
    io::write_all(STDOUT_FILENO, words);
}

// By the kit's `io`, as in `morning`.
fn say_number(words: &[u8], n: u64) {
    say(words);
    io::print_decimal(STDOUT_FILENO, n);
}

// How high a timer for `at` lies at the start: 0 on the expired stack, 6 on the parking list, and else its level.
fn height(at: u64) -> usize
    ensures { result ≤ 6 }
{
    BITS.iter()
        .filter(|&&bits| at.checked_shr(bits) != START.checked_shr(bits))
        .count()
}

// What the arm does about an answer; this one only says it.
fn act(answer: Answer) {
    match answer {
        Answer::Key(key) => say_number(b": set, its key is ", key),
        Answer::Out(_, value, _, moves, _) => {
            say_number(b": due is ", value);
            say_number(b", moves: ", moves);
        }
        Answer::Nothing(moves, _) => say_number(b": moves: ", moves),
        Answer::No(number) => say_number(b": refused, number ", number),
        _ => {}
    }
    say(b"\n");
}

// Sets a timer.
fn set(store: &mut Store, value: u64, at: u64) {
    say_number(b"timer ", value);
    say_number(b" for ", at);
    say_number(b", height ", height(at) as u64);
    act(store.insert(value, at));
}

// Looks at the store when it is time to.
fn look(store: &mut Store, now: u64) {
    say_number(b"awake at ", now);
    act(store.poll(now));
}

// Asks when to look next, sleeps until then, and looks, until there is nothing to wait for. Here no time passes while it sleeps.
// It counts how often it looked, and gives up after `most` times, which `wakes_all` says are enough.
fn sleep(store: &mut Store, most: usize) -> usize {
    for looks in 0..most {
        let Some(time) = store.wake() else {
            return looks;
        };
        look(store, time);
    }
    most
}

// The morning: milliseconds since the arm was first switched on.
fn main() {
    let mut store = Store::new();
    // nothing is pending, so the store is asleep at any time: this sets its clock
    look(&mut store, START);
    for (i, &at) in TIMERS.iter().enumerate() {
        set(&mut store, i as u64 + 1, at);
    }
    let most = TIMERS
        .iter()
        .fold(TIMERS.len(), |most, &at| most.saturating_add(height(at)));
    let looks = sleep(&mut store, most);
    say_number(b"asleep for good after ", looks as u64);
    say_number(b" looks; heights and timers were ", most as u64);
    say(b"\n");
}

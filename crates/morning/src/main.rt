// A milking arm's morning: how to lend a store. The store lies in six arrays that we make; its state and its slot heads go into
// each call by value and come back with the answer. No call requires anything of us, so there is nothing to prove about the
// store: what is wrong gets a number, and changes nothing. This program is to be copied, so it stands alone, and its store is its own.
#![tactic(auto)]

use delay_queue::{Reply, format, heads_in, insert, next_wake, no_store, poll, remove};
use queue::Answer;
use wheel::Wheel;

const STDOUT_FILENO: i32 = 1;

// Room for so many records.
const N: usize = 4;

// A value and a period for each record.
const PAIRS: usize = 8;

// The value of a timer says what to do when it comes out: here, to cut the vacuum.
const CUT: u64 = 7;

// What we keep between calls: the last state and heads, and the arrays.
#[derive(Drop)]
struct Store {
    state: Wheel,
    heads: [[u16; 64]; 6],
    values: [u64; PAIRS],
    deadlines: [u64; N],
    nexts: [u16; N],
    prevs: [u16; N],
    turns: [u64; N],
    marks: [u16; N],
}

impl Store {
    // Every record is free. format does not look at what was before it; every other call would answer number 2.
    fn new() -> Self {
        let mut store = Store {
            state: no_store(),
            heads: [[links::NOBODY; 64]; 6],
            values: [0; PAIRS],
            deadlines: [0; N],
            nexts: [0; N],
            prevs: [0; N],
            turns: [0; N],
            marks: [0; N],
        };
        let made = format(
            store.state,
            store.heads,
            &mut store.values,
            &mut store.deadlines,
            &mut store.nexts,
            &mut store.prevs,
            &mut store.turns,
            &mut store.marks,
            N as u64,
            1,
        );
        store.keep(made);
        store
    }

    // What a call handed back goes into the next: the state and the slot heads.
    fn keep(&mut self, reply: Reply) -> Answer {
        self.state = reply.state;
        self.heads = heads_in(reply.heads);
        reply.answer
    }

    // Sets a timer, which does not repeat.
    fn insert(&mut self, value: u64, at: u64) -> Answer {
        let reply = insert(
            self.state,
            self.heads,
            &mut self.values,
            &mut self.deadlines,
            &mut self.nexts,
            &mut self.prevs,
            &self.turns,
            &mut self.marks,
            value,
            at,
            0,
        );
        self.keep(reply)
    }

    // When to look at the store.
    fn next_wake(&self) -> Answer {
        next_wake(
            self.state,
            self.heads,
            &self.values,
            &self.deadlines,
            &self.nexts,
            &self.prevs,
            &self.turns,
            &self.marks,
        )
    }

    // Takes out a timer that is due.
    fn poll(&mut self, now: u64) -> Answer {
        let reply = poll(
            self.state,
            self.heads,
            &self.values,
            &mut self.deadlines,
            &mut self.nexts,
            &mut self.prevs,
            &mut self.turns,
            &mut self.marks,
            now,
        );
        self.keep(reply)
    }

    // Cancels the timer of a key.
    fn remove(&mut self, key: u64) -> Answer {
        let reply = remove(
            self.state,
            self.heads,
            &self.values,
            &self.deadlines,
            &mut self.nexts,
            &mut self.prevs,
            &mut self.turns,
            &mut self.marks,
            key,
        );
        self.keep(reply)
    }
}

// By the kit's `io`: std's println! would make this program assume one C function more, os::c::rattle_errno.
fn say(words: &[u8], n: u64) {
    io::write_all(STDOUT_FILENO, words);
    io::print_decimal(STDOUT_FILENO, n);
    io::write_all(STDOUT_FILENO, b"\n");
}

// What the arm does about an answer; this one only says it.
fn act(answer: Answer) {
    match answer {
        Answer::Key(key) => say(b"set, its key is ", key),
        Answer::Out(_, value, _, _, _) => say(b"due: ", value),
        Answer::Nothing(moves, _) => say(b"nothing is due, moves: ", moves),
        Answer::Wake(time) => say(b"look again at ", time),
        Answer::No(number) => say(b"refused, number ", number),
        _ => {}
    }
}

// The key that an insert answered; one that was refused has none.
fn key_in(answer: Answer) -> Option<u64> {
    match answer {
        Answer::Key(key) => Some(key),
        _ => None,
    }
}

// Sets the cut-off, once and not again, and asks when to look at the store. One that is due when it is set is told of too: look at once.
fn cut_at(store: &mut Store, at: u64) -> Option<u64> {
    let set = store.insert(CUT, at);
    act(set);
    act(store.next_wake());
    key_in(set)
}

// Two cows, in milliseconds since the first came in.
fn main() {
    let mut store = Store::new();
    let Some(key) = cut_at(&mut store, 420_000) else {
        // without its cut-off the vacuum stays shut
        return;
    };
    act(store.poll(420_000));

    // The second cow's cut-off takes the record of the first, under a key of its own. So a late cancel by the first key does not
    // reach it: number 6. That is so for every key whose timer has left, whatever was called since; `lending` cites it.
    cut_at(&mut store, 900_000);
    act(store.remove(key));
    act(store.poll(900_000));
}

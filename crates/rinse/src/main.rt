// The rinse pump, which runs every 40 minutes: a timer that repeats. It is set once. Each poll that hands it out sets it
// again under the same key, so that this key cancels it whenever that is. How a store is lent is shown by `morning`;
// here one method lends it, for any call. To be copied too, so it stands alone.
#![tactic(auto)]

use delay_queue::{Call, heads_in, no_store};
use queue::Answer;
use wheel::Wheel;

const STDOUT_FILENO: i32 = 1;

// Room for so many records.
const N: usize = 4;

// A value and a period for each record.
const PAIRS: usize = 8;

// The value of a timer says what to do when it comes out: here, to rinse.
const RINSE: u64 = 9;

// 40 minutes, in milliseconds.
const EVERY: u64 = 2_400_000;

// What we keep between calls: the last state and heads, and the arrays.
#[derive(Drop)]
struct Store {
    state: Wheel,
    heads: [[u16; 64]; 6],
    values: [u64; PAIRS],
    deadlines: [u64; N],
    nexts: [u16; N],
    prevs: [u16; N],
    turns: [u64; N],
    marks: [u16; N],
}

impl Store {
    // Room alone: until a format it is no store.
    fn new() -> Self {
        Store {
            state: no_store(),
            heads: [[links::NOBODY; 64]; 6],
            values: [0; PAIRS],
            deadlines: [0; N],
            nexts: [0; N],
            prevs: [0; N],
            turns: [0; N],
            marks: [0; N],
        }
    }

    // Makes a call. What it hands back goes into the next.
    fn ask(&mut self, call: Call) -> Answer {
        let reply = any_call::ask(
            self.state,
            self.heads,
            &mut self.values,
            &mut self.deadlines,
            &mut self.nexts,
            &mut self.prevs,
            &mut self.turns,
            &mut self.marks,
            call,
        );
        self.state = reply.state;
        self.heads = heads_in(reply.heads);
        reply.answer
    }
}

fn say(words: &[u8]) {
    io::write_all(STDOUT_FILENO, words);
}

// By the kit's `io`, as in `morning`.
fn say_number(words: &[u8], n: u64) {
    say(words);
    io::print_decimal(STDOUT_FILENO, n);
}

// What the pump does about an answer; this one only says it.
fn act(answer: Answer) {
    match answer {
        Answer::Key(key) => say_number(b"set, its key is ", key),
        Answer::Out(key, _, deadline, _, _) => {
            say_number(b"rinse at ", deadline);
            say_number(b", its key is ", key);
        }
        Answer::Last(key, _, deadline, _, _) => {
            say_number(b"rinse for the last time at ", deadline);
            say_number(b", its key was ", key);
        }
        Answer::Gone(_, deadline) => say_number(b"cancelled, it was due at ", deadline),
        Answer::Nothing(_, _) => say(b"nothing to do"),
        Answer::No(number) => say_number(b"refused, number ", number),
        _ => {}
    }
    say(b"\n");
}

// The key that an insert answered; one that was refused has none.
fn key_in(answer: Answer) -> Option<u64> {
    match answer {
        Answer::Key(key) => Some(key),
        _ => None,
    }
}

// Two hours of rinsing, in milliseconds since the pump was switched on.
fn main() {
    let mut store = Store::new();
    store.ask(Call::Format(N as u64, 1));
    let set = store.ask(Call::Insert(RINSE, EVERY, EVERY));
    act(set);
    let Some(key) = key_in(set) else {
        // it was refused, and said so: there is nothing to wait for
        return;
    };
    for now in [EVERY, EVERY, 2 * EVERY, 3 * EVERY] {
        act(store.ask(Call::Poll(now)));
    }

    // It waits for the fourth time, still under the key that the insert answered.
    act(store.ask(Call::Remove(key)));
    act(store.ask(Call::Poll(4 * EVERY)));
}

// A morning on an old board, whose tick counts milliseconds in 32 bits and starts again at 0 while the first cow is
// milked. The board hands its raw tick to `tick::poll`, or to `tick::poll_some` where the arm must not wait for long, and
// counts its deadlines from the front part's time. How a store is lent is shown by `morning`.
// To be copied too, so it stands alone.
#![tactic(auto)]

use delay_queue::{Reply, format, heads_in, insert, no_store};
use queue::Answer;
use tick::{Front, TickReply};
use wheel::Wheel;

const STDOUT_FILENO: i32 = 1;

// Room for so many records.
const N: usize = 4;

// A value and a period for each record.
const PAIRS: usize = 8;

// The value of a timer says what to do when it comes out: here, to cut the vacuum.
const CUT: u64 = 7;

// What the board keeps between calls: the front part, the last state and heads, and the arrays.
#[derive(Drop)]
struct Board {
    front: Front,
    state: Wheel,
    heads: [[u16; 64]; 6],
    values: [u64; PAIRS],
    deadlines: [u64; N],
    nexts: [u16; N],
    prevs: [u16; N],
    turns: [u64; N],
    marks: [u16; N],
}

impl Board {
    // The front part at its start, and a store whose records are free.
    fn new() -> Self {
        let mut board = Board {
            front: tick::start(),
            state: no_store(),
            heads: [[links::NOBODY; 64]; 6],
            values: [0; PAIRS],
            deadlines: [0; N],
            nexts: [0; N],
            prevs: [0; N],
            turns: [0; N],
            marks: [0; N],
        };
        let made = format(
            board.state,
            board.heads,
            &mut board.values,
            &mut board.deadlines,
            &mut board.nexts,
            &mut board.prevs,
            &mut board.turns,
            &mut board.marks,
            N as u64,
            1,
        );
        board.keep(made);
        board
    }

    // What a call handed back goes into the next: the state and the slot heads.
    fn keep(&mut self, reply: Reply) -> Answer {
        self.state = reply.state;
        self.heads = heads_in(reply.heads);
        reply.answer
    }

    // The same of a poll by a tick, which moves the front part on. It is told of.
    fn told(&mut self, looked: TickReply, now: u32) {
        self.front = looked.front;
        let answer = self.keep(looked.reply);
        say(b"the tick is ", now as u64);
        say(b"  the time is ", self.front.time);
        act(answer);
    }

    // Sets the cut-off, so many milliseconds from now.
    fn cut_in(&mut self, by: u32) {
        let reply = insert(
            self.state,
            self.heads,
            &mut self.values,
            &mut self.deadlines,
            &mut self.nexts,
            &mut self.prevs,
            &self.turns,
            &mut self.marks,
            CUT,
            ahead(self.front.time, by),
            0,
        );
        act(self.keep(reply));
    }

    // Takes out a timer that is due at the tick.
    fn look(&mut self, now: u32) {
        let looked = tick::poll(
            self.front,
            self.state,
            self.heads,
            &self.values,
            &mut self.deadlines,
            &mut self.nexts,
            &mut self.prevs,
            &mut self.turns,
            &mut self.marks,
            now,
        );
        self.told(looked, now);
    }

    // The same with at most `limit` moves, so that the arm is not held up. A poll that paused is gone on with, whatever the tick
    // is by then.
    fn look_for(&mut self, now: u32, limit: u64) {
        let looked = tick::poll_some(
            self.front,
            self.state,
            self.heads,
            &self.values,
            &mut self.deadlines,
            &mut self.nexts,
            &mut self.prevs,
            &mut self.turns,
            &mut self.marks,
            now,
            limit,
        );
        self.told(looked, now);
    }
}

// By the kit's `io`, as in `morning`.
fn say(words: &[u8], n: u64) {
    io::write_all(STDOUT_FILENO, words);
    io::print_decimal(STDOUT_FILENO, n);
    io::write_all(STDOUT_FILENO, b"\n");
}

// What the arm does about an answer; this one only says it.
fn act(answer: Answer) {
    match answer {
        Answer::Key(key) => say(b"  set, its key is ", key),
        Answer::Out(_, value, _, _, _) => say(b"  due: ", value),
        Answer::Nothing(moves, _) => say(b"  nothing is due, moves: ", moves),
        Answer::NotYet(moves, _) => say(b"  not yet, moves: ", moves),
        Answer::No(number) => say(b"  refused, number ", number),
        _ => {}
    }
}

// The time that lies so much ahead, or the last there is.
fn ahead(time: u64, by: u32) -> u64 {
    time.saturating_add(u64::from(by))
}

// The first cow comes in a minute before the tick starts again at 0, the second after it.
fn milk(board: &mut Board) {
    board.look(4_294_907_296);
    board.cut_in(420_000);
    board.look(0);
    board.look(360_000);
    board.cut_in(480_000);
    board.look(840_000);
}

// Two cut-offs for one time, and a poll that may make one move a call. It pauses while the tick moves on: a whole poll at
// another time is refused meanwhile, and the next with a limit goes on with it.
fn pause(board: &mut Board) {
    board.cut_in(70);
    board.cut_in(70);
    board.look_for(840_100, 1);
    board.look(840_150);
    board.look_for(840_200, 1);
    board.look_for(840_200, 1);
}

// Reads a tick, and says what came of it.
fn see(front: Front, now: u32) -> Front {
    say(b"the tick is ", now as u64);
    let after = match tick::read(front, now) {
        Ok(later) => later,
        Err(over) => {
            act(Answer::from(over));
            front
        }
    };
    say(b"  the time is ", after.time);
    after
}

// Reads the ticks one after the other.
fn see_all(start: Front, ticks: &[u32]) {
    let mut front = start;
    for &now in ticks {
        front = see(front, now);
    }
}

// Readings at the edges: round the 2^32, a gap of just 2^32 ms, which nobody can see, and the end of the 64 bits.
fn edges() {
    see_all(tick::start(), &[0, u32::MAX, 0, 5, 5]);
    let late = Front { time: u64::MAX - 5 };
    see_all(late, &[u32::MAX, 0]);
}

fn main() {
    let mut board = Board::new();
    milk(&mut board);
    pause(&mut board);
    edges();
}

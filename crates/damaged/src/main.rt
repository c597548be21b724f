// What the calls do with a damaged store. Of a store of nine records one word is changed, or a slice is too short, and the eight
// calls but format are asked, each of the store so changed. What is not sound gets no 2 from all eight, which change no word; what
// is still sound gets it from none, and all but next wake and length change words. While a poll is in hand clear alone does.
#![tactic(auto)]

mod image;

use delay_queue::Call;
use image::Word::{
    Deadlines, Elapsed, Expired, Free, Hand, Heads, Marks, N, Nexts, Occupied, Parking, Prevs,
    Turns, Until, Values,
};
use image::{Image, Slice, Word, say};
use std::array;

const NOBODY: u64 = links::NOBODY as u64;

const LAST_TURN: u64 = records::LAST_TURN;

const RETIRED: u64 = places::RETIRED as u64;

// ---- stores, by the calls and the changes that make them

// At elapsed 100 record 0 is retired.
const BEGUN: &[Call] = &[
    Call::Insert(10, 50, 0),
    Call::Remove(LAST_TURN << 16),
    Call::Poll(100),
];

// A store of n records at elapsed 100. Record 0 is retired, the others are free. The words behind them are x.
fn begun(n: u64, x: u64) -> Image {
    Image::formatted(n, LAST_TURN, x).after(BEGUN)
}

// Nine records. 0 is retired; 1 is at level 0, 2 and then 3 in one slot of level 1, 4 at level 2, 5 at level 5; 6 is on the expired
// stack; 7 and then 8 are free.
const NINE: &[Call] = &[
    Call::Insert(11, 105, 0),
    Call::Insert(12, 200, 0),
    Call::Insert(13, 210, 0),
    Call::Insert(14, 5000, 0),
    Call::Insert(15, 2000000000, 0),
    Call::Insert(16, 60, 0),
];

fn nine(x: u64) -> Image {
    begun(9, x).after(NINE)
}

// The expired one is handed out.
const OUT: &[Call] = &[Call::Poll(100)];

// Then a poll at 210 in hand, after the first of two moves out of slot 3 of level 1: 2 is at level 0, and 3 still there. 4 is at level 2,
// 5 at level 5; 7 and then 8 are free, the others retired.
const HELD: &[Call] = &[Call::Poll(105), Call::PollSome(210, 1)];

// The same with 2 on the expired stack.
const EXPIRED_TOO: &[(Word, u64)] = &[
    (Heads(0, 8), NOBODY),
    (Occupied(0), 0),
    (Expired, 2),
    (Marks(2), places::EXPIRED as u64),
    (Deadlines(2), 100),
];

// The same with no poll in hand: 2 lies too low.
const LET_GO: &[(Word, u64)] = &[(Hand, NOBODY)];

// Of three records, a poll at 5000 in hand, after the first of two moves out of slot 1 of level 2: 1 is in slot 14 of level 1, and 2 still
// there.
const HIGH: &[Call] = &[
    Call::Insert(11, 5000, 0),
    Call::Insert(12, 5001, 0),
    Call::PollSome(5000, 1),
];

// The same with 1 moved on to level 0, which is filled too early.
const TOO_LOW: &[(Word, u64)] = &[
    (Heads(1, 14), NOBODY),
    (Occupied(1), 0),
    (Heads(0, 8), 1),
    (Occupied(0), 1 << 8),
    (Marks(1), 8),
];

// Both drained, and the poll between two drains: it goes on in slot 14 of level 1, which starts after elapsed.
const BETWEEN: &[Call] = &[Call::PollSome(5000, 1)];

// The store of nine with 2 and then 3 parked, at the next block's start and 50 later.
const PARKED: &[Call] = &[
    Call::Insert(11, 105, 0),
    Call::Insert(12, 1 << 36, 0),
    Call::Insert(13, (1 << 36) + 50, 0),
    Call::Insert(14, 5000, 0),
    Call::Insert(15, 2000000000, 0),
    Call::Insert(16, 60, 0),
];

// The same with 2 cut out of its list: its mark says that it is parked, and it is in no list.
const UNPARKED: &[(Word, u64)] = &[
    (Parking, 3),
    (Prevs(3), 3),
    (Nexts(2), NOBODY),
    (Prevs(2), NOBODY),
];

// The store with two parked, once the expired one is handed out, with a poll at the next block's start in hand: it drains the parking list
// before the rest is out.
const HASTY: &[(Word, u64)] = &[(Hand, places::PARKING as u64), (Until, 1 << 36)];

// Of four records, a poll 50 after the next block's start in hand, after the first of two moves out of the parking list: 1 is in slot 0 of
// level 5, and 2 still there. 3 is free.
const DRAINED: &[Call] = &[
    Call::Insert(11, 1 << 36, 0),
    Call::Insert(12, (1 << 36) + 50, 0),
    Call::PollSome((1 << 36) + 50, 1),
];

// Both moved, and the poll between two drains: it goes on in slot 0 of level 5, which starts at elapsed, the block's start.
const CROSSED: &[Call] = &[Call::PollSome((1 << 36) + 50, 1)];

// The same with 3 parked, in the block after: no poll would have drained the parking list and left one there.
const PARKED_TOO: &[(Word, u64)] = &[
    (Free, NOBODY),
    (Parking, 3),
    (Deadlines(3), 1 << 37),
    (Nexts(3), NOBODY),
    (Prevs(3), 3),
    (Marks(3), places::PARKING as u64),
];

// Three timers at 70 in one slot of level 1: 0, then 1, then 2.
const THREE: &[Call] = &[
    Call::Insert(10, 70, 0),
    Call::Insert(11, 70, 0),
    Call::Insert(12, 70, 0),
];

// The same with the middle one cut out of its list, as the first half of a reset leaves it: in no list, at turn 1.
const CUT: &[(Word, u64)] = &[
    (Nexts(0), 2),
    (Prevs(2), 0),
    (Nexts(1), NOBODY),
    (Prevs(1), NOBODY),
    (Marks(1), NOBODY),
];

// One timer at 70, and the same cut out of its list by half a reset.
const ONE: &[Call] = &[Call::Insert(7, 70, 0)];

const HALF: &[(Word, u64)] = &[
    (Nexts(0), NOBODY),
    (Prevs(0), NOBODY),
    (Marks(0), NOBODY),
    (Heads(1, 1), NOBODY),
    (Occupied(1), 0),
];

// The words of retired records behind the nine.
const FILLED: &[(Word, u64)] = &[
    (Marks(9), RETIRED),
    (Marks(10), RETIRED),
    (Marks(11), RETIRED),
];

// ---- what is tried of each

// Slices one word too short.
const SHORT: &[(Slice, usize)] = &[
    (Slice::Values, 17),
    (Slice::Deadlines, 8),
    (Slice::Nexts, 8),
    (Slice::Prevs, 8),
    (Slice::Turns, 8),
    (Slice::Marks, 8),
];

// Slices of just as many words as the records need.
const ENOUGH: &[(Slice, usize)] = &[
    (Slice::Values, 18),
    (Slice::Deadlines, 9),
    (Slice::Nexts, 9),
    (Slice::Prevs, 9),
    (Slice::Turns, 9),
    (Slice::Marks, 9),
];

// The words of the state.
const STATE: &[Word] = &[
    N,
    Expired,
    Free,
    Parking,
    Hand,
    Elapsed,
    Until,
    Occupied(0),
    Occupied(1),
    Occupied(2),
    Occupied(3),
    Occupied(4),
    Occupied(5),
];

const WRONG_DEADLINES: &[(Word, u64)] = &[
    // at level 0, one later; at level 1, just out of the slot on both sides, and before elapsed
    (Deadlines(1), 106),
    (Deadlines(2), 191),
    (Deadlines(2), 256),
    (Deadlines(2), 99),
    // its slot, 2^36 later
    (Deadlines(5), 70719476736),
    // an expired one that is not elapsed
    (Deadlines(6), 99),
    (Deadlines(6), 101),
];

const WRONG_NEXTS: &[(Word, u64)] = &[
    // a slot's list ends too early, goes round, goes on in another slot
    (Nexts(2), NOBODY),
    (Nexts(2), 2),
    (Nexts(3), 2),
    (Nexts(3), 1),
    // the expired stack goes on in the free list, the free list past the last record
    (Nexts(6), 7),
    (Nexts(8), 9),
    // a retired one has a link
    (Nexts(0), 5),
];

const WRONG_PREVS: &[(Word, u64)] = &[
    // a link back that is missing, or leads to another slot, or round
    (Prevs(3), NOBODY),
    (Prevs(3), 4),
    (Prevs(3), 3),
    // the tail that a head names: none, itself and not the last, another list's; of a list of one, and of the free list
    (Prevs(2), NOBODY),
    (Prevs(2), 2),
    (Prevs(2), 4),
    (Prevs(1), NOBODY),
    (Prevs(7), 7),
    // past the last record; of a retired one
    (Prevs(8), 9),
    (Prevs(0), 5),
];

const WRONG_TURNS: &[(Word, u64)] = &[
    // of a pending one, a free one, a retired one
    (Turns(3), 0),
    (Turns(3), 1 << 48),
    (Turns(7), 0),
    (Turns(7), 1 << 48),
    (Turns(0), 0),
    (Turns(0), u64::MAX),
    // a retired one at a lower turn
    (Turns(0), 1),
    (Turns(0), LAST_TURN - 1),
];

const WRONG_MARKS: &[(Word, u64)] = &[
    // a pending one: another slot, the expired stack, the parking list, free, nobody
    (Marks(1), 42),
    (Marks(1), places::EXPIRED as u64),
    (Marks(1), places::PARKING as u64),
    (Marks(2), places::FREE as u64),
    (Marks(4), NOBODY),
    // the slot of the same number at another level; an expired one as free
    (Marks(5), 257),
    (Marks(6), places::FREE as u64),
    // a free one: expired, nobody, retired
    (Marks(8), places::EXPIRED as u64),
    (Marks(8), NOBODY),
    (Marks(8), RETIRED),
    // a retired one: free, no place at all, nobody
    (Marks(0), places::FREE as u64),
    (Marks(0), RETIRED + 1),
    (Marks(0), NOBODY),
];

const WRONG_NUMBERS: &[(Word, u64)] = &[
    (N, 0),
    (N, 8),
    (N, 10),
    (N, 13),
    (N, 1025),
    (Elapsed, 0),
    (Elapsed, 99),
    (Elapsed, 101),
    // emptied; the record of another list; the second of its own; past the last record
    (Expired, NOBODY),
    (Expired, 7),
    (Expired, 9),
    (Free, NOBODY),
    (Free, 6),
    (Free, 8),
    (Free, 9),
    // a slot in hand, filled or not, with no now; a now with no slot
    (Hand, 67),
    (Hand, 0),
    (Until, 1),
    (Until, 100),
    // nobody is parked: a pending one, past the last record
    (Parking, 5),
    (Parking, 9),
];

const WRONG_ROWS: &[(Word, u64)] = &[
    // a flag cleared, and one set, in a row that has one; one set in a row that has none
    (Occupied(0), 0),
    (Occupied(0), (1 << 41) + (1 << 40)),
    (Occupied(1), 0),
    (Occupied(1), 12),
    (Occupied(2), 0),
    (Occupied(3), 1),
    (Occupied(4), 1 << 63),
    (Occupied(5), 0),
    // cleared; the second of its list; past the last record; another slot's
    (Heads(1, 3), NOBODY),
    (Heads(1, 3), 3),
    (Heads(1, 3), 9),
    (Heads(5, 1), 4),
    // an empty slot gets a pending one, a free one, a retired one
    (Heads(0, 42), 1),
    (Heads(3, 10), 7),
    (Heads(5, 63), 0),
];

// Changes that leave the store sound.
const STILL_SOUND: &[(Word, u64)] = &[
    // a value of a pending one, of a free one
    (Values(6), 99),
    (Values(16), u64::MAX),
    // a period of a pending one, of the expired one, which the poll sets again or for the last time, of a free one, of a retired one
    (Values(7), 1),
    (Values(13), 40),
    (Values(13), u64::MAX),
    (Values(17), 1 << 63),
    (Values(1), 5),
    // within its slot, its first and its last; of a free one, of a retired one
    (Deadlines(2), 192),
    (Deadlines(2), 255),
    (Deadlines(4), 8191),
    (Deadlines(5), 2147483647),
    (Deadlines(7), u64::MAX),
    (Deadlines(0), 0),
    // of a pending one, a free one
    (Turns(4), 1),
    (Turns(7), 5),
    // past the last record
    (Values(18), 0),
    (Values(19), 0),
    (Deadlines(9), 0),
    (Nexts(9), 0),
    (Prevs(10), 0),
    (Turns(10), 0),
    (Marks(11), 0),
];

// The heads of all slots.
fn heads() -> [Word; 384] {
    array::from_fn(|i| Heads(i / 64, i % 64))
}

// One word changed: what each record has of it, and then every one in turn raised by one.
fn of_records(image: &Image) {
    image.show_all(WRONG_DEADLINES);
    image.show_all(WRONG_NEXTS);
    image.show_each(&array::from_fn::<_, 9, _>(Nexts));
    image.show_all(WRONG_PREVS);
    image.show_each(&array::from_fn::<_, 9, _>(Prevs));
    image.show_all(WRONG_TURNS);
    image.show_each(&array::from_fn::<_, 9, _>(Turns));
    image.show_all(WRONG_MARKS);
    image.show_each(&array::from_fn::<_, 9, _>(Marks));
}

// The same of the state and of the slot heads.
fn of_state(image: &Image) {
    image.show_all(WRONG_NUMBERS);
    image.show_each(STATE);
    image.show_all(WRONG_ROWS);
    image.show_each(&heads());
}

const MORE_RETIRED: &[(Word, u64)] = &[(N, 10), (N, 1024), (N, 1025), (N, 1026), (N, 65535)];

// Every record behind the nine would be a retired one. As many as the slices have words for are sound, and one more is not.
fn retired(image: &Image) {
    say("the words behind the nine records are those of retired ones:");
    image.show_all(MORE_RETIRED);
}

const NO_RECORD: &[(Word, u64)] = &[(N, 0)];

// No list has a member, so that nothing but n itself is against none.
fn single(image: &Image) {
    say("one record, and it is retired:");
    image.show_whole();
    image.show_all(NO_RECORD);
}

const OTHER_CLOCKS: &[(Word, u64)] = &[
    (Elapsed, 63),
    (Elapsed, 64),
    (Elapsed, 105),
    (Elapsed, 106),
    (Elapsed, (1 << 36) + 100),
];

// Elapsed may be anything in its row of 64 that is not past the first timer. The poll at 100 changes it, or is refused by number 7.
fn quiet(image: &Image) {
    say("nothing on the expired stack:");
    image.show_whole();
    image.show_all(OTHER_CLOCKS);
}

const LAST_TURNS: &[(Word, u64)] = &[(Turns(1), LAST_TURN - 1), (Turns(1), LAST_TURN)];

const MARKED: &[(Word, u64)] = &[(Marks(0), RETIRED)];

// A timer that a reset has unlinked and not placed: it is in no list, and its mark is nobody, at whatever turn. Only one with the mark
// of the retired is retired.
fn lost() {
    let three = Image::formatted(3, 1, 77).after(THREE);
    let image = three.altered(CUT);
    say("three timers at 70, the middle one cut out of its list:");
    image.show_whole();
    image.show_all(LAST_TURNS);
    let one = Image::formatted(1, LAST_TURN, 77).after(ONE);
    let half = one.altered(HALF);
    say("one timer at 70, at the last turn, cut out of its list:");
    half.show_whole();
    half.show_all(MARKED);
}

const WHILE_HELD: &[(Word, u64)] = &[
    // the slot's start, any later time; before the start, none
    (Until, 192),
    (Until, u64::MAX),
    (Until, 191),
    (Until, 0),
    // any clock before the start; the start itself, past it, another block
    (Elapsed, 0),
    (Elapsed, 191),
    (Elapsed, 192),
    (Elapsed, 193),
    (Elapsed, (1 << 36) + 100),
    // a slot of level 0, an empty one, one that is not due, no slot at all, nobody
    (Hand, 8),
    (Hand, 68),
    (Hand, 129),
    (Hand, places::SLOTS as u64),
    (Hand, places::FREE as u64),
    (Hand, NOBODY - 1),
    (Hand, NOBODY),
    // one of the slot in hand, and one moved out of it, that are another slot's
    (Deadlines(3), 191),
    (Deadlines(3), 256),
    (Deadlines(2), 264),
];

// A poll in hand, whose next move is the head of slot 3 of level 1.
fn in_hand(image: &Image) {
    say("a poll at 210 in hand, inside its drain:");
    image.show_whole();
    image.show_all(WHILE_HELD);
    image.show_each(STATE);
}

const WHILE_PARKED: &[(Word, u64)] = &[
    // a deadline of the next block, its first and its last; of this block, of the one after
    (Deadlines(2), 1 << 36),
    (Deadlines(2), (1 << 37) - 1),
    (Deadlines(2), (1 << 36) - 1),
    (Deadlines(2), 1 << 37),
    (Deadlines(3), 210),
    // the clock in the block of the parked ones
    (Elapsed, 1 << 36),
    // the head: none, the second, past the last record, a free one
    (Parking, NOBODY),
    (Parking, 3),
    (Parking, 9),
    (Parking, 7),
    // links: ends too early, goes round, into a slot; the tail that the head names, and a link back
    (Nexts(2), NOBODY),
    (Nexts(3), 2),
    (Nexts(3), 1),
    (Prevs(2), 2),
    (Prevs(2), NOBODY),
    (Prevs(3), NOBODY),
    (Prevs(3), 4),
    // marks: a slot, the expired stack, free, nobody; one of a slot says that it is parked
    (Marks(2), 320),
    (Marks(2), places::EXPIRED as u64),
    (Marks(3), places::FREE as u64),
    (Marks(3), NOBODY),
    (Marks(1), places::PARKING as u64),
    // in hand, with no now
    (Hand, places::PARKING as u64),
];

// Two timers parked, 2 and then 3.
fn parked(image: Image) {
    say("two timers parked:");
    image.show_whole();
    image.show_all(WHILE_PARKED);
    image.show_each(STATE);
    say("one cut out of the parking list, its mark left:");
    image.altered(UNPARKED).show_whole();
    say("the parking list in hand at the next block's start, while slots are filled:");
    image.after(OUT).altered(HASTY).show_whole();
}

const WHILE_PARKING: &[(Word, u64)] = &[
    // the block's start, any later time; before it, none
    (Until, 1 << 36),
    (Until, u64::MAX),
    (Until, (1 << 36) - 1),
    (Until, 0),
    // any clock of the block before; in the block itself, in the one after
    (Elapsed, 0),
    (Elapsed, (1 << 36) - 1),
    (Elapsed, 1 << 36),
    (Elapsed, 1 << 37),
    // the slot that is filled, the expired stack, nobody
    (Hand, 320),
    (Hand, places::EXPIRED as u64),
    (Hand, NOBODY),
    // one still parked, and one moved, of another block
    (Deadlines(2), (1 << 36) - 1),
    (Deadlines(2), 1 << 37),
    (Deadlines(1), (1 << 36) - 1),
    (Deadlines(1), 1 << 37),
];

// A poll in hand, whose next move is the head of the parking list: elapsed lies in the block before.
fn draining(image: &Image) {
    say("a poll in hand, inside the drain of the parking list:");
    image.show_whole();
    image.show_all(WHILE_PARKING);
    image.show_each(STATE);
}

const WHILE_CROSSED: &[(Word, u64)] = &[
    (Until, 1 << 36),
    (Until, (1 << 36) - 1),
    // 0 is no such start, nor is a time past it
    (Elapsed, 0),
    (Elapsed, (1 << 36) + 1),
    (Hand, NOBODY),
];

// The poll between two drains at the block's start: it goes on in elapsed's own slot.
fn crossed(image: Image) {
    say("the parking list drained, the poll in hand at the block's start:");
    image.show_whole();
    image.show_all(WHILE_CROSSED);
    image.show_each(STATE);
    say("the same with one parked:");
    image.altered(PARKED_TOO).show_whole();
}

const NO_NOW: &[(Word, u64)] = &[(Until, 0)];

const WHILE_BETWEEN: &[(Word, u64)] = &[
    // any clock of its lap before the slot's start; the lap before
    (Elapsed, 4991),
    (Elapsed, 4095),
];

// Damages of more than one word.
fn midway(held: Image) {
    say("the poll let go, and then its now:");
    let gone = held.altered(LET_GO);
    gone.show_whole();
    gone.show_all(NO_NOW);
    say("a timer on the expired stack while a poll is in hand:");
    held.altered(EXPIRED_TOO).show_whole();
    say("a poll at 5000 in hand, inside a drain of level 2:");
    let high = begun(3, 77).after(HIGH);
    high.show_whole();
    say("the same with a timer moved on to level 0:");
    high.altered(TOO_LOW).show_whole();
    say("a poll at 5000 in hand, between two drains:");
    let between = high.after(BETWEEN);
    between.show_whole();
    between.show_all(WHILE_BETWEEN);
}

fn main() {
    let image = nine(77);
    say("not sound:");
    image.show_lent(SHORT);
    of_records(&image);
    of_state(&image);
    say("sound:");
    image.show_whole();
    image.show_all(STILL_SOUND);
    image.show_lent(ENOUGH);
    let polled = image.after(OUT);
    quiet(&polled);
    retired(&nine(LAST_TURN).altered(FILLED));
    single(&begun(1, 77));
    lost();
    let held = polled.after(HELD);
    in_hand(&held);
    midway(held);
    parked(begun(9, 77).after(PARKED));
    let parking = begun(4, 77).after(DRAINED);
    draining(&parking);
    crossed(parking.after(CROSSED));
}

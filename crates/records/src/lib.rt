// Records in lent slices: whether there is room for them and how all of them are made, their values, keys and turns, where a
// deadline may lie, and how one joins the wheel or leaves the store.
#![tactic(auto)]

ghost use Rattle.std.specs.Prelude.{◌≡◌, ◌+◌, ◌*◌, ◌^◌, ◌≤◌, ◌<◌, max, length};
ghost use Rattle.contracts.specs.Tells.{Tells};
ghost use Rattle.refusals.specs.Numbers.{no_in};
ghost use Rattle.places.specs.Places.{slots, free};
ghost use Rattle.places.specs.Format.{over};
ghost use Rattle.wheel.specs.Words.{words};
ghost use Rattle.records.specs.Records.{packed, turn_in, number_in, target};
ghost use Rattle.records.specs.Slices.{slices_of, Room, Fits, value_at, period_at, given};
ghost use Rattle.records.specs.Store.{wheel_of};
ghost use Rattle.records.specs.Format.{InRange, FormatNo, MakesOf};
ghost use Rattle.records.specs.Inner.{HasSlot, PlacesTo, CanPlace, LeavesTo, CanFree};
ghost use Rattle.records.specs.Found.{AheadNo, DeadlineNo, AgainIs, FindIs};

use refusals::Refusal;
use wheel::Wheel;

// The last turn: a record that leaves at it is retired.
pub const LAST_TURN: u64 = (1 << 48) - 1;

// The most records that a store may have: the numbers below nobody.
pub const LIMIT: u16 = 65535;

// The furthest below elapsed that a deadline may lie: an hour.
pub const MAX_AGE: u64 = 3_600_000;

// The state, put together again.
pub fn wheel_of(elapsed: u64, occupied: [u64; 6], tops: [u16; 4], hand: u16, until: u64) -> Wheel
    ensures { result ≡ wheel_of elapsed occupied tops hand until }
{
    Wheel {
        elapsed,
        occupied,
        tops: places::tops_of(tops),
        hand,
        until,
    }
}

// Whether the slices are long enough for n records, of which each has two words of `values`.
pub fn has_room(
    n: u16,
    values: &[u64],
    deadlines: &[u64],
    nexts: &[u16],
    prevs: &[u16],
    turns: &[u64],
    marks: &[u16],
) -> bool
    ensures { Tells (Room n (slices_of values.now deadlines.now nexts.now prevs.now turns.now marks.now)) result }
{
    let k = n as usize;
    2 * k <= values.len()
        && k <= deadlines.len()
        && k <= nexts.len()
        && k <= prevs.len()
        && k <= turns.len()
        && k <= marks.len()
}

// A format is refused with 1 or 8, or taken.
pub fn format_no(
    values: &[u64],
    deadlines: &[u64],
    nexts: &[u16],
    prevs: &[u16],
    turns: &[u64],
    marks: &[u16],
    n: u64,
    turn: u64,
) -> Result<(), Refusal>
    ensures { FormatNo (Fits (slices_of values.now deadlines.now nexts.now prevs.now turns.now marks.now) n) (InRange turn) (no_in result) }
{
    if n == 0 {
        return Err(Refusal::NoRoom);
    }
    if (LIMIT as u64) < n {
        return Err(Refusal::NoRoom);
    }
    if !has_room(n as u16, values, deadlines, nexts, prevs, turns, marks) {
        return Err(Refusal::NoRoom);
    }
    if turn == 0 {
        return Err(Refusal::BadTurn);
    }
    if LAST_TURN < turn {
        return Err(Refusal::BadTurn);
    }
    Ok(())
}

// The first n words become x.
fn fill(words: &mut [u64], n: usize, x: u64)
    requires { n ≤ length words.old }
    ensures { words.new ≡ over n (λ i. x) words.old }
{
    for i in 0..n {
        words[i] = x;
    }
}

// A fresh store of n records in what is lent: values, periods and deadlines are 0, as elapsed and the occupied rows are.
pub fn make(
    tops: &mut [u16; 4],
    heads: &mut [[u16; 64]; 6],
    values: &mut [u64],
    deadlines: &mut [u64],
    nexts: &mut [u16],
    prevs: &mut [u16],
    turns: &mut [u64],
    marks: &mut [u16],
    n: u16,
    turn: u64,
)
    requires { Fits (slices_of values.old deadlines.old nexts.old prevs.old turns.old marks.old) n }
    ensures { MakesOf n turn (slices_of values.old deadlines.old nexts.old prevs.old turns.old marks.old) tops.new heads.new values.new deadlines.new nexts.new prevs.new turns.new marks.new }
{
    places::format(tops, heads, nexts, prevs, marks, n);
    let k = n as usize;
    fill(values, 2 * k, 0);
    fill(deadlines, k, 0);
    fill(turns, k, turn);
}

// A record has two words of `values`, of which no other crate knows the order: its value and, behind it, its period.
pub fn value_of(values: &[u64], item: u16) -> u64
    requires { 2 * item < length values.now }
    ensures { result ≡ value_at values.now item }
{
    values[2 * (item as usize)]
}

pub fn period_of(values: &[u64], item: u16) -> u64
    requires { 2 * item + 1 < length values.now }
    ensures { result ≡ period_at values.now item }
{
    values[2 * (item as usize) + 1]
}

pub fn give(values: &mut [u64], item: u16, value: u64, period: u64)
    requires { 2 * item + 1 < length values.old }
    ensures { values.new ≡ given values.old item value period }
{
    let k = 2 * (item as usize);
    values[k] = value;
    values[k + 1] = period;
}

// A deadline that lies too far ahead of elapsed is refused with 4.
fn ahead_no(elapsed: u64, when: u64) -> Result<(), Refusal>
    ensures { AheadNo elapsed when (no_in result) }
{
    if times::too_far(elapsed, when) {
        return Err(Refusal::TooFar);
    }
    Ok(())
}

// A deadline is refused with 11 or 4, or taken.
pub fn deadline_no(elapsed: u64, when: u64) -> Result<(), Refusal>
    ensures { DeadlineNo elapsed when (no_in result) }
{
    if when < elapsed {
        if elapsed - when > MAX_AGE {
            return Err(Refusal::TooOld);
        }
        return Ok(());
    }
    ahead_no(elapsed, when)
}

// When a timer is due again, a period after the deadline that it was handed out at, if it is set again at all.
pub fn next_time(elapsed: u64, deadline: u64, period: u64) -> Option<u64>
    ensures { AgainIs elapsed (deadline + period) result }
{
    let when = deadline.checked_add(period)?;
    ahead_no(elapsed, when).ok()?;
    Some(when)
}

// Whether a deadline has a slot: it is over elapsed and lies in its block.
fn has_slot(elapsed: u64, when: u64) -> bool
    ensures { Tells (HasSlot elapsed when) result }
{
    elapsed < when && times::same_block(elapsed, when)
}

// The list of a deadline that has no slot: the expired stack if it is not over elapsed, else the parking list.
fn aside(elapsed: u64, when: u64) -> u16
    requires { HasSlot elapsed when → ⊥ }
    ensures { (result ≡ target elapsed (max when elapsed)) × (slots ≤ result) × (result < free) }
{
    if when <= elapsed {
        return places::EXPIRED;
    }
    places::PARKING
}

// The loose record `item` is placed: on the expired stack if its deadline is not over elapsed, else in its slot, or on the parking
// list if it lies in the next block.
pub fn place(
    elapsed: u64,
    occupied: &mut [u64; 6],
    tops: &mut [u16; 4],
    heads: &mut [[u16; 64]; 6],
    deadlines: &mut [u64],
    nexts: &mut [u16],
    prevs: &mut [u16],
    marks: &mut [u16],
    item: u16,
    when: u64,
)
    requires { CanPlace (words elapsed occupied.old tops.old heads.old nexts.old prevs.old marks.old) deadlines.old item when }
    ensures { PlacesTo (words elapsed occupied.old tops.old heads.old nexts.old prevs.old marks.old) deadlines.old
        item when (words elapsed occupied.new tops.new heads.new nexts.new prevs.new marks.new) deadlines.new }
{
    if has_slot(elapsed, when) {
        deadlines[item as usize] = when;
        wheel::insert(
            elapsed, occupied, tops, heads, nexts, prevs, marks, when, item,
        );
        return;
    }
    // raised to elapsed if it is smaller
    deadlines[item as usize] = when.max(elapsed);
    let list = aside(elapsed, when);
    wheel::push(
        elapsed, occupied, tops, heads, nexts, prevs, marks, list, item,
    );
}

// The loose record `item` is freed, its turn raised by one; at the last turn it is retired.
pub fn leave(
    elapsed: u64,
    occupied: &[u64; 6],
    tops: &mut [u16; 4],
    heads: &mut [[u16; 64]; 6],
    nexts: &mut [u16],
    prevs: &mut [u16],
    turns: &mut [u64],
    marks: &mut [u16],
    item: u16,
)
    requires { CanFree (words elapsed occupied.now tops.old heads.old nexts.old prevs.old marks.old) turns.old item }
    ensures { LeavesTo (words elapsed occupied.now tops.old heads.old nexts.old prevs.old marks.old) turns.old
        item (words elapsed occupied.now tops.new heads.new nexts.new prevs.new marks.new) turns.new }
{
    let turn = turns[item as usize];
    if turn == LAST_TURN {
        marks[item as usize] = places::RETIRED;
        return;
    }
    turns[item as usize] = turn + 1;
    wheel::push(
        elapsed,
        occupied,
        tops,
        heads,
        nexts,
        prevs,
        marks,
        places::FREE,
        item,
    );
}

// A key: the turn over the record number, which is its low 16 bits.
pub fn key_of(turn: u64, item: u16) -> u64
    requires { turn < 2 ^ 48 }
    ensures { result ≡ packed turn item }
{
    turn * 65536 + item as u64
}

pub fn turn_of(key: u64) -> u64
    ensures { result ≡ turn_in key }
{
    key / 65536
}

pub fn number_of(key: u64) -> u16
    ensures { result ≡ number_in key }
{
    (key % 65536) as u16
}

// The pending record that the key names.
pub fn find(n: u16, turns: &[u64], marks: &[u16], key: u64) -> Option<u16>
    requires { (n ≤ length turns.now) × (n ≤ length marks.now) }
    ensures { FindIs n turns.now marks.now key result }
{
    let item = number_of(key);
    if n <= item {
        return None;
    }
    if !places::is_pending(marks[item as usize]) {
        return None;
    }
    if turns[item as usize] != turn_of(key) {
        return None;
    }
    Some(item)
}

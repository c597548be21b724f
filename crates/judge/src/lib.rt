// Whether a store is sound: what every call but format judges first.
#![tactic(auto)]

ghost use Rattle.std.specs.Prelude.{◌≤◌, ◌<◌, length};
ghost use Rattle.contracts.specs.Tells.{Tells};
ghost use Rattle.records.specs.Words.{words, parts, Sound, holding};
ghost use Rattle.places.specs.Words.{tops_of};
ghost use Rattle.links.specs.Links.{at};
ghost use Rattle.places.specs.Heads.{head_of};
ghost use Rattle.places.specs.Places.{parking, expired};
ghost use Rattle.wheel.specs.Midway.{Belongs, Parked};
ghost use Rattle.judge.specs.Judge.{Typed, RecordAgrees, RecordsAgree, OwnStart, CanHold};

use wheel::Wheel;

// Whether a timer with the deadline belongs in the slot `place`, where the list `hand` of height low + 1, which starts at
// `clock`, is drained. With no poll in hand: 0, nobody and elapsed.
fn is_place(low: usize, hand: u16, clock: u64, when: u64, place: u16) -> bool
    requires { low < 6 }
    ensures { Tells (Belongs low hand clock place when) result }
{
    if when < clock {
        return false;
    }
    if !times::same_block(clock, when) {
        return false;
    }
    let level = times::level_for(clock, when);
    if low < level {
        let slot = times::slot_for(when, level);
        return place == places::slot_place(level, slot);
    }
    if place == hand {
        return true;
    }
    let slot = times::slot_for(when, low);
    place == places::slot_place(low, slot)
}

// Whether a timer with the deadline belongs on the parking list: in the block after the clock's, or in the clock's own if it is
// the parking list that is drained.
fn is_parked(hand: u16, clock: u64, when: u64) -> bool
    ensures { Tells (Parked hand clock when) result }
{
    if hand == places::PARKING {
        return times::same_block(clock, when);
    }
    times::next_block(clock, when)
}

// Whether the mark tells a place, the turn is in range, and the last one of a retired record, and the deadline obeys the rule of
// the place.
fn record_agrees(low: usize, hand: u16, clock: u64, when: u64, turn: u64, mark: u16) -> bool
    requires { low < 6 }
    ensures { Tells (RecordAgrees low hand clock when turn mark) result }
{
    if turn == 0 {
        return false;
    }
    if records::LAST_TURN < turn {
        return false;
    }
    if places::is_slot(mark) {
        return is_place(low, hand, clock, when, mark);
    }
    if mark == places::PARKING {
        return is_parked(hand, clock, when);
    }
    if mark == places::EXPIRED {
        return when == clock;
    }
    if mark == places::RETIRED {
        return turn == records::LAST_TURN;
    }
    mark == places::FREE
}

// Whether this holds of all n records.
fn records_agree(
    low: usize,
    hand: u16,
    clock: u64,
    n: u16,
    deadlines: &[u64],
    turns: &[u64],
    marks: &[u16],
) -> bool
    requires { (low < 6) × (n ≤ length deadlines.now) × (n ≤ length turns.now) × (n ≤ length marks.now) }
    ensures { Tells (RecordsAgree low hand clock n deadlines.now turns.now marks.now) result }
{
    for i in 0..n {
        let k = i as usize;
        if !record_agrees(low, hand, clock, deadlines[k], turns[k], marks[k]) {
            return false;
        }
    }
    true
}

// Whether elapsed is a multiple of the width of the level above: then a drain of the list there may have filled elapsed's slot
// of this level. At a block's start, that of the parking list, of which `parked` is the head, began the poll.
fn is_own(elapsed: u64, level: usize, parked: u16) -> bool
    requires { level < 6 }
    ensures { Tells (OwnStart level elapsed parked) result }
{
    if elapsed % (times::MAX_DURATION + 1) == 0 {
        if elapsed == 0 {
            return false;
        }
        return parked == links::NOBODY;
    }
    let above = level + 1;
    if above == times::NUM_LEVELS {
        return false;
    }
    elapsed % times::slot_range(above) == 0
}

// Whether a poll at `until` can have the drain of `hand` in hand, but for the records.
fn can_hold(elapsed: u64, tops: &[u16; 4], heads: &[[u16; 64]; 6], hand: u16, until: u64) -> bool
    ensures { Tells (CanHold elapsed until hand (head_of (tops_of tops.now) heads.now hand)
        (head_of (tops_of tops.now) heads.now expired) (head_of (tops_of tops.now) heads.now parking)) result }
{
    if places::EXPIRED <= hand {
        return false;
    }
    let level = places::level_of(hand);
    if level == 0 {
        return false;
    }
    if places::head_of(tops, heads, hand) == links::NOBODY {
        return false;
    }
    if places::head_of(tops, heads, places::EXPIRED) != links::NOBODY {
        return false;
    }
    if hand == places::PARKING {
        return times::block_over(elapsed, until);
    }
    let slot = places::slot_of(hand);
    let start = times::slot_start(elapsed, level, slot);
    if until < start {
        return false;
    }
    if start == elapsed {
        let parked = places::head_of(tops, heads, places::PARKING);
        return is_own(elapsed, level, parked);
    }
    elapsed < start
}

// Whether the store in its parts is sound, where they stand.
pub fn is_sound_here(
    elapsed: u64,
    occupied: &[u64; 6],
    tops: &[u16; 4],
    heads: &[[u16; 64]; 6],
    values: &[u64],
    deadlines: &[u64],
    nexts: &[u16],
    prevs: &[u16],
    turns: &[u64],
    marks: &[u16],
    hand: u16,
    until: u64,
) -> bool
    requires { Typed (at tops.now 0) occupied.now heads.now }
    ensures { Tells (Sound (holding hand until (parts elapsed occupied.now tops.now heads.now values.now deadlines.now nexts.now prevs.now turns.now marks.now)))
        result }
{
    // no u16 is over the limit
    let n = tops[0];
    if n == 0 {
        return false;
    }
    if !records::has_room(n, values, deadlines, nexts, prevs, turns, marks) {
        return false;
    }
    if !wheel::is_whole(elapsed, occupied, tops, heads, nexts, prevs, marks) {
        return false;
    }
    if hand == links::NOBODY {
        if until != 0 {
            return false;
        }
        return records_agree(0, hand, elapsed, n, deadlines, turns, marks);
    }
    if !can_hold(elapsed, tops, heads, hand, until) {
        return false;
    }
    let level = places::level_of(hand);
    let start = wheel::list_start(elapsed, hand);
    records_agree(level - 1, hand, start, n, deadlines, turns, marks)
}

// What the types say. It does nothing: a contract over what is lent does not know it.
pub fn seen(n: u16, occupied: [u64; 6], heads: [[u16; 64]; 6])
    ensures { Typed n occupied heads }
{}

// Whether the store is sound.
pub fn is_sound(
    state: Wheel,
    heads: [[u16; 64]; 6],
    values: &[u64],
    deadlines: &[u64],
    nexts: &[u16],
    prevs: &[u16],
    turns: &[u64],
    marks: &[u16],
) -> bool
    ensures { Tells (Sound (words state heads values.now deadlines.now nexts.now prevs.now turns.now marks.now)) result }
{
    let occupied = state.occupied;
    let tops = places::tops_in(state.tops);
    seen(tops[0], occupied, heads);
    is_sound_here(
        state.elapsed,
        &occupied,
        &tops,
        &heads,
        values,
        deadlines,
        nexts,
        prevs,
        turns,
        marks,
        state.hand,
        state.until,
    )
}
